//! The names of generations and of their files.
ghost use Rattle.std.specs.Prelude.{◌≡◌, ◌≢◌, ◌≤◌, ◌<◌, ◌↔◌, ℕ, IfSome, IsTrue, None};
ghost use Rattle.pc_generations.specs.Names.{folder_name, last_digit};
ghost use Rattle.pc_generations.specs.Digits.{digit_in, seven_digit_number};

/// Generations are numbered 1 to 9,999,999.
pub const MOST_GENERATIONS: u32 = 9_999_999;

/// The name of the base of a generation.
pub const BASE_NAME: &[u8] = b"base.pcb";

/// The name of the log of a generation.
pub const LOG_NAME: &[u8] = b"log.pcl";

// The last decimal digit of the number, as it is written.
fn last_digit(number: u32) -> u8
    ensures { result ≡ last_digit number }
{
    b'0' + (number % 10) as u8
}

/// The name of the folder of a generation: `gen-` and the seven last decimal digits of its number.
pub fn generation_name(number: u32) -> [u8; 11]
    ensures { result ≡ folder_name number }
{
    let mut name = *b"gen-0000000";
    name[4] = last_digit(number / 1_000_000);
    name[5] = last_digit(number / 100_000);
    name[6] = last_digit(number / 10_000);
    name[7] = last_digit(number / 1_000);
    name[8] = last_digit(number / 100);
    name[9] = last_digit(number / 10);
    name[10] = last_digit(number);
    name
}

// The digit with this index in the name; 0 if there is none.
fn digit_at(name: &[u8], at: usize) -> u32
    ensures is { result ≡ digit_in name.now at }
    ensures small { result < 256 }
{
    match name.get(at) {
        Some(byte) => u32::from(byte.saturating_sub(b'0')),
        None => 0,
    }
}

// The number of the seven digits after `gen-`, if they are digits.
fn digits_of(name: &[u8]) -> u32
    ensures { result ≡ seven_digit_number name.now }
{
    let high = 1_000_000 * digit_at(name, 4)
        + 100_000 * digit_at(name, 5)
        + 10_000 * digit_at(name, 6);
    let low = 1_000 * digit_at(name, 7)
        + 100 * digit_at(name, 8)
        + 10 * digit_at(name, 9)
        + digit_at(name, 10);
    high + low
}

// Whether this is the name of the generation's folder.
fn is_named(name: &[u8], number: u32) -> bool
    ensures { IsTrue result ↔ name.now ≡ folder_name number }
{
    let wanted = generation_name(number);
    name == wanted.as_slice()
}

/// The number, 0 to 9,999,999, of the generation whose folder has this name; `None` if it is the name of no generation's
/// folder.
pub fn number_in(name: &[u8]) -> Option<u32>
    ensures named { IfSome result (λ number. (number ≤ MOST_GENERATIONS) × (name.now ≡ folder_name number)) }
    ensures other { result ≡ None → (number : ℕ) → number ≤ MOST_GENERATIONS → name.now ≢ folder_name number }
{
    let number = digits_of(name);
    if number > MOST_GENERATIONS || !is_named(name, number) {
        return None;
    }
    Some(number)
}
