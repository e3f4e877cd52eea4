ghost use Rattle.std.specs.Prelude.{◌≡◌, [], true, false};
ghost use Rattle.hash_rows.specs.Lawful.{IsLawful, IsRegisters, Suits};
ghost use Rattle.journal_read.specs.Terms.{HasCounts, HasRates};

use hash_rows::{Options, Sketch};

fn is_registers(n: u32) -> bool
    ensures yes { result ≡ true → IsRegisters n }
    ensures no { result ≡ false → IsRegisters n → ⊥ }
{
    matches!(n, 128 | 256 | 512 | 1024 | 2048 | 4096 | 8192 | 16384)
}

fn suits(options: &Options) -> bool
    requires { options.now.watch.items ≡ [] }
    ensures yes { result ≡ true → Suits options.now.sketch options.now.shape options.now.watch.items }
    ensures no { result ≡ false → Suits options.now.sketch options.now.shape options.now.watch.items → ⊥ }
{
    match options.sketch {
        Sketch::LogLog => options.shape.rows == 1 && is_registers(options.shape.columns),
        _ => true,
    }
}

fn has_counts(options: &Options) -> bool
    ensures yes { result ≡ true → HasCounts options.now }
    ensures no { result ≡ false → HasCounts options.now → ⊥ }
{
    (1..=8).contains(&options.shape.rows)
        && (1..=65536).contains(&options.shape.columns)
        && (1..=16).contains(&options.workers)
        && options.readers <= 4
        && options.asks <= 1024
        && (1..=1024).contains(&options.heavy)
}

fn has_rates(options: &Options) -> bool
    ensures yes { result ≡ true → HasRates options.now }
    ensures no { result ≡ false → HasRates options.now → ⊥ }
{
    (1..=1 << 40).contains(&options.threshold)
        && (1..=4096).contains(&options.lane)
        && (1..=1024).contains(&options.batch)
        && (1..=65536).contains(&options.round)
        && (1..=1 << 40).contains(&options.least)
}

/// Whether options that watch no key are lawful.
pub(crate) fn is_lawful(options: &Options) -> bool
    requires { options.now.watch.items ≡ [] }
    ensures yes { result ≡ true → IsLawful options.now }
    ensures no { result ≡ false → IsLawful options.now → ⊥ }
{
    has_counts(options) && has_rates(options) && suits(options)
}
