// The text of an answer: its first line, and the lines of the report's entries.
#![tactic(auto)]

ghost use Rattle.std.specs.Prelude.{◌++◌, ◌+◌, ◌*◌, ◌≤◌, length, Ok};
ghost use Rattle.meaning.specs.Calls.{denial_number, denial_place};
ghost use Rattle.verdict.specs.Checks.{refusal, unfounded, answer_of};
ghost use Rattle.text.specs.Decimal.{decimal};
ghost use Rattle.text.specs.Output.{Appends};
ghost use Rattle.entries.specs.Text.{word, line, answer_line, entries_of, text_of, first_most, entry_most};

use calls::{denial_number, denial_place};
use entries::put_entries;
use meaning::Denied;
use text::{put, put_decimal, put_word};
use verdict::Verdict;

// A first line with one number.
fn put_one(output: &mut [u8], words: &[u8], n: usize) -> usize
    requires { length words.now ≤ 11 }
    ensures appends { Appends (line (words.now ++ decimal n)) 0 result output.old output.new }
    ensures upper_bound { result ≤ first_most }
{
    let next = put_word(output, 0, words);
    let next = put_decimal(output, next, n);
    put(output, next, b'\n')
}

// A first line with two numbers.
pub fn put_two(output: &mut [u8], words: &[u8], n: usize, k: usize) -> usize
    requires { length words.now ≤ 10 }
    ensures appends { Appends (line (words.now ++ decimal n ++ word " " ++ decimal k)) 0 result output.old output.new }
    ensures upper_bound { result ≤ first_most }
{
    let next = put_word(output, 0, words);
    let next = put_decimal(output, next, n);
    let next = put(output, next, b' ');
    let next = put_decimal(output, next, k);
    put(output, next, b'\n')
}

// The text of `unfounded`, with the report's entries.
fn put_unfounded(output: &mut [u8], n: usize, k: usize, report: &[u8]) -> usize
    requires { (n + k ≤ 1000) × (4 * (n + k) ≤ length report.now) }
    ensures appends { Appends (text_of (unfounded n k) report.now) 0 result output.old output.new }
    ensures upper_bound { result ≤ first_most + entry_most * (n + k) }
{
    let next = put_two(output, b"unfounded ", n, k);
    put_entries(output, next, report, n + k)
}

// The line of a refusal with this number and place.
pub fn put_refusal(output: &mut [u8], number: usize, place: usize) -> usize
    ensures appends { Appends (answer_line (refusal number place)) 0 result output.old output.new }
    ensures upper_bound { result ≤ first_most }
{
    put_two(output, b"refused ", number, place)
}

// The line of a refusal.
pub fn put_refused(output: &mut [u8], why: Denied) -> usize
    ensures appends { Appends (answer_line (refusal (denial_number why) (denial_place why))) 0 result output.old output.new }
    ensures upper_bound { result ≤ first_most }
{
    put_refusal(output, denial_number(why), denial_place(why))
}

// The text of a verdict with its report.
fn put_verdict(output: &mut [u8], verdict: Verdict, report: &[u8]) -> usize
    requires { (entries_of (answer_of (Ok verdict)) ≤ 1000) × (4 * entries_of (answer_of (Ok verdict)) ≤ length report.now) }
    ensures appends { Appends (text_of (answer_of (Ok verdict)) report.now) 0 result output.old output.new }
    ensures upper_bound { result ≤ first_most + entry_most * entries_of (answer_of (Ok verdict)) }
{
    match verdict {
        Verdict::Range(v) => put_one(output, b"range ", v),
        Verdict::Rule(i) => put_one(output, b"rule ", i),
        Verdict::Constraint(i) => put_one(output, b"constraint ", i),
        Verdict::Unfounded(n, k) => put_unfounded(output, n, k, report),
        Verdict::Stable => put_word(output, 0, b"stable\n"),
    }
}

// The text of an answer with its report.
pub fn put_answer(output: &mut [u8], verdict: Result<Verdict, Denied>, report: &[u8]) -> usize
    requires { (entries_of (answer_of verdict) ≤ 1000) × (4 * entries_of (answer_of verdict) ≤ length report.now) }
    ensures appends { Appends (text_of (answer_of verdict) report.now) 0 result output.old output.new }
    ensures upper_bound { result ≤ first_most + entry_most * entries_of (answer_of verdict) }
{
    match verdict {
        Err(why) => put_refused(output, why),
        Ok(verdict) => put_verdict(output, verdict, report),
    }
}
