// What the values of options set.
ghost use Rattle.std.specs.Prelude.{◌≡◌, ◌≤◌, ◌&&◌, nat_le, Some, None, IfSome, option_map, if◌then◌else◌};
ghost use Rattle.command_words.specs.Settings.{mode_of, number_from, mode_in, number_in, setting_by, limits_of};

use heap_model::Limits;
use script_text::number;

/// What the program does.
#[derive(Clone, Copy, Debug, PartialEq, Eq)]
pub enum Mode {
    /// A script with threads.
    Run,
    /// A script of one thread in each round.
    One,
    /// A script that is drawn.
    Gen,
}

/// What the words of the program set.
#[derive(Clone, Copy, Debug, PartialEq, Eq)]
pub struct Setting {
    pub mode: Mode,
    pub segments: u32,
    pub large_pages: u32,
    pub slots: u32,
    pub seed: u64,
    /// How many commands are drawn.
    pub count: u32,
}

impl Setting {
    /// The limits of the heap: with threads it may have 64 callers, else one.
    pub fn limits(&self) -> Limits
        ensures { result ≡ limits_of self.now }
    {
        let callers = match self.mode {
            Mode::Run => 64,
            Mode::One | Mode::Gen => 1,
        };
        Limits {
            segments: self.segments,
            large_pages: self.large_pages,
            slots: self.slots,
            callers,
        }
    }
}

/// The values that were given, each as it was written.
#[derive(Clone, Copy, Debug)]
pub struct Values<'a> {
    pub mode: Option<&'a str>,
    pub segments: Option<&'a str>,
    pub large: Option<&'a str>,
    pub slots: Option<&'a str>,
    pub seed: Option<&'a str>,
    pub count: Option<&'a str>,
}

/// What values set; None where one is not valid.
pub fn setting_of(values: &Values) -> Option<Setting>
    ensures { result ≡ setting_by (option_map (λ s. s.now) values.now.mode) (option_map (λ s. s.now) values.now.segments)
        (option_map (λ s. s.now) values.now.large) (option_map (λ s. s.now) values.now.slots)
        (option_map (λ s. s.now) values.now.seed) (option_map (λ s. s.now) values.now.count) }
{
    Some(Setting {
        mode: mode_in(values.mode)?,
        segments: small_in(1, 16, 16, values.segments)?,
        large_pages: small_in(0, 4096, 1024, values.large)?,
        slots: small_in(1, 16, 4, values.slots)?,
        seed: number_in(0, u64::MAX, 1, values.seed)?,
        count: small_in(0, 100_000, 10_000, values.count)?,
    })
}

fn mode_in(word: Option<&str>) -> Option<Mode>
    ensures { result ≡ mode_in (option_map (λ s. s.now) word.entry) }
{
    match word {
        None => Some(Mode::Run),
        Some(word) => mode_of(word),
    }
}

fn mode_of(word: &str) -> Option<Mode>
    ensures { result ≡ mode_of word.now }
{
    match word {
        "run" => Some(Mode::Run),
        "one" => Some(Mode::One),
        "gen" => Some(Mode::Gen),
        _ => None,
    }
}

/// A number of 32 bits.
fn small_in(low: u32, high: u32, absent: u32, word: Option<&str>) -> Option<u32>
    requires { absent ≤ high }
    ensures { result ≡ number_in low high absent (option_map (λ s. s.now) word.entry) }
{
    let number = number_in(u64::from(low), u64::from(high), u64::from(absent), word)?;
    Some(number as u32)
}

fn number_in(low: u64, high: u64, absent: u64, word: Option<&str>) -> Option<u64>
    ensures value { result ≡ number_in low high absent (option_map (λ s. s.now) word.entry) }
    ensures few { absent ≤ high → IfSome result (λ n. n ≤ high) }
{
    match word {
        None => Some(absent),
        Some(word) => number_from(low, high, word),
    }
}

fn number_from(low: u64, high: u64, word: &str) -> Option<u64>
    ensures value { result ≡ number_from low high word.now }
    ensures few { IfSome result (λ n. n ≤ high) }
{
    match number(word.as_bytes()) {
        Ok(n) => within(low, high, n),
        Err(_) => None,
    }
}

fn within(low: u64, high: u64, n: u64) -> Option<u64>
    ensures value { result ≡ (if nat_le low n && nat_le n high then Some n else None) }
    ensures few { IfSome result (λ m. m ≤ high) }
{
    if low <= n && n <= high { Some(n) } else { None }
}
