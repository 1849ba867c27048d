// Splitting bytes into lines, and counting them.
ghost use Rattle.std.specs.Prelude.{◌≡◌, ◌<◌, ◌≤◌, ◌==◌, length, IfSome};
ghost use Rattle.std.specs.List.{position_from};
ghost use Rattle.lines.specs.Ascii.{newline};
ghost use Rattle.lines.specs.Splitting.{first_line, line_end, newlines, unended};

use crate::keys::NEWLINE;

// The place of the first newline.
pub fn first_newline(s: &[u8]) -> Option<usize>
    ensures value { result ≡ position_from (λ b. b == newline) 0 s.now }
    ensures within { IfSome result (λ place. place < length s.now) }
{
    s.iter().position(|b| *b == NEWLINE)
}

// How many bytes the first line has.
#[tactic(auto, using(crate::proofs::SplitLaws::first_lengths))]
fn first_length(s: &[u8]) -> usize
    ensures value { result ≡ length (first_line s.now) }
    ensures upper_bound { result ≤ length s.now }
{
    first_newline(s).map_or(s.len(), |before| before + 1)
}

// The place behind the next newline at or behind `at`; the end of s where there is none.
pub fn line_end(s: &[u8], at: usize) -> usize
    requires { at ≤ length s.now }
    ensures value { result ≡ line_end s.now at }
    ensures upper_bound { result ≤ length s.now }
{
    at + first_length(&s[at..])
}

// How many newlines s has.
pub fn newline_count(s: &[u8]) -> usize
    ensures value { result ≡ newlines s.now }
    ensures upper_bound { result ≤ length s.now }
{
    s.iter().map(|b| usize::from(*b == NEWLINE)).sum()
}

// Whether bytes stand behind the last newline.
pub fn is_unended(s: &[u8]) -> bool
    ensures { result ≡ (unended s.now == 1) }
{
    s.last().is_some_and(|b| *b != NEWLINE)
}
