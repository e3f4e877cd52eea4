/// What happens in a run, one step at a time.
#[derive(Clone, Copy, Debug, PartialEq, Eq)]
pub enum Event {
    /// The worker takes up its next update.
    Update(u32),
    /// The oldest message of the worker's lane is folded.
    Take(u32),
    /// What is folded becomes what is shown.
    Publish,
    /// The reader looks at what is shown.
    Ask(u32),
}

/// What comes of an event.
#[derive(Clone, Copy, Debug, PartialEq, Eq)]
pub enum Reply {
    Counted,
    Pushed { amount: i64 },
    Refused,
    Waits,
    Took { amount: i64 },
    Empty,
    Published,
    Answered,
    Over,
}
