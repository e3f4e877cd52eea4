ghost use Rattle.std.specs.Prelude.{◌≡◌, ◌<◌, ◌≤◌, ◌%◌, ◌==◌, length, filter, slice_index_or};
ghost use Rattle.std.specs.List.{range_with_len};
ghost use Rattle.hash_rows.specs.Limits.{most_records};

use listed::Listed;
use std::marker::Model;

/// The positions of a worker's packets, rising.
#[derive(Drop)]
pub struct Positions {
    form: Form,
}

#[derive(Drop)]
enum Form {
    /// Every so many-th position from the first on.
    Turns { first: u32, step: u32, count: u32 },
    /// Those of the list.
    Listed(Listed<u32>),
}

impl Model for Positions {
    ghost use Rattle.std.specs.Prelude.{List, ℕ};
    ghost use Rattle.shares.specs.Positions.{HasShortPositions, positions_in};

    ghost Value = { List ℕ };

    ghost view = { λ p. positions_in p.form };

    ghost invariant = { λ p. HasShortPositions p.form };
}

impl Positions {
    /// Those of the worker, where packets are shared out in turn. They take no memory.
    pub fn of_turn(worker: u32, workers: u32, packets: u32) -> Positions
        requires worker { worker < workers }
        requires workers { workers ≤ 16 }
        requires few { packets ≤ most_records }
        ensures { result ≡ filter (λ i. i % workers == worker) (range_with_len 0 packets) }
    {
        let count = (packets + (workers - 1 - worker)) / workers;
        Positions {
            form: Form::Turns {
                first: worker,
                step: workers,
                count,
            },
        }
    }

    /// Those of the list.
    pub fn of_list(list: Listed<u32>) -> Positions
        ensures { result ≡ list.items }
    {
        Positions {
            form: Form::Listed(list),
        }
    }

    /// How many there are.
    pub fn len(&self) -> u32
        ensures { result ≡ length self.now }
    {
        match &self.form {
            Form::Turns { count, .. } => *count,
            Form::Listed(list) => list.len(),
        }
    }

    /// The position at the place.
    pub fn at(&self, place: u32) -> u32
        requires { place < length self.now }
        ensures { result ≡ slice_index_or self.now place 0 }
    {
        match &self.form {
            Form::Turns { first, step, .. } => *first + *step * place,
            Form::Listed(list) => *list.get(place),
        }
    }
}
