ghost use Rattle.std.specs.Prelude.{◌≡◌, ℤ};
ghost use Rattle.packet_key.specs.declared.key.FlowKey.{FlowKey};

use packet_key::FlowKey;

/// What has an estimate for each key: a table, or what two of them differ by.
pub trait Estimates {
    ghost estimate_of: { Self → FlowKey → ℤ };

    fn estimate_of(&self, key: &FlowKey) -> i64
        ensures { result ≡ estimate_of self.now key.now };
}
