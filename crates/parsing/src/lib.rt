// A line of the table of `samples` taken apart: a word, which is told by its first letter, a name and a colon, and a case, whose bytes are put
// after those of the beginning.
#![tactic(auto)]

ghost use Rattle.std.specs.Prelude.{◌≡◌, ◌≤◌, ◌<◌, length};
ghost use Rattle.std.specs.Option.{IfSome};

use pieces::{appended, decimal, find};

// The part of the room that a call is lent starts here.
const START: usize = 16;

// The bytes that a call is lent where the line does not say how many: more than `least`, `check` and `bounds` ask for.
const USUAL: usize = 3080;

// The words that a search is lent where the line does not say how many: those of 256 sets.
const SETS: usize = 1024;

// The most bytes or words that a call is lent: more than any asks for.
const MOST: usize = 61000;

// The bytes of a short output.
const SHORT: usize = 4;

// What a line asks for.
#[derive(Clone, Copy, PartialEq, Eq, Default)]
pub enum Case {
    Read,
    Least,
    Check,
    Bounds,
    Normalize,
    Flatten,
    // The search of components.
    Begin,
    // The text of `print_verdict` or `bounds`, into all of the room or into few bytes.
    Print,
    PrintShort,
    List,
    ListShort,
    // The bytes that the later cases begin with.
    Beginning,
    // Nothing.
    Comment,
    // The file that is said to be written, normalized or flattened anew: tried after another case.
    NormalizeAgain,
    FlattenAgain,
    // A line that is written wrongly.
    #[default]
    Bad,
}

// What a line asks for, where its name starts and ends, and where its case starts.
#[derive(Drop)]
struct Head {
    case: Case,
    start: usize,
    colon: usize,
    rest: usize,
}

// Where the bytes of a case end: those of its file or input, and those of its assignment, of its lent ranges or of the file that is said to be written. Where
// the lent part of the room starts and ends.
#[derive(Drop)]
struct Ends {
    file: usize,
    all: usize,
    from: usize,
    to: usize,
}

// What a line asks for and its name as in `Head`, the bytes and the lent part of its case as in `Ends`, and how many bytes the beginning has after the line.
#[derive(Clone, Copy, Default)]
pub struct Line {
    pub case: Case,
    pub start: usize,
    pub colon: usize,
    pub file: usize,
    pub all: usize,
    pub from: usize,
    pub to: usize,
    pub begun: usize,
}

// What a line asks for, by its first letter. Bytes 1 and 2 stand for cases that no line is to name.
fn case_of(letter: u8) -> Case {
    match letter {
        b'r' => Case::Read,
        b'l' => Case::Least,
        b'c' => Case::Check,
        b'h' => Case::Bounds,
        b'n' => Case::Normalize,
        b'f' => Case::Flatten,
        b'b' => Case::Begin,
        b'p' => Case::Print,
        b's' => Case::PrintShort,
        b'm' => Case::List,
        b't' => Case::ListShort,
        b'w' => Case::Beginning,
        b'#' => Case::Comment,
        1 => Case::NormalizeAgain,
        2 => Case::FlattenAgain,
        _ => Case::Bad,
    }
}

// A line with no name and nothing after it.
fn only(case: Case, end: usize) -> Head
    ensures start_le_colon { result.start ≤ result.colon }
    ensures colon_le_end { result.colon ≤ end }
    ensures rest_le_end { result.rest ≤ end }
{
    Head {
        case,
        start: end,
        colon: end,
        rest: end,
    }
}

// The line from `at` up to `end`. One that is empty counts as one that begins with #.
fn head_of(table: &[u8], at: usize, end: usize) -> Head
    requires at_le_end { at ≤ end }
    requires end_in_bounds { end ≤ length table.now }
    ensures start_le_colon { result.start ≤ result.colon }
    ensures colon_le_end { result.colon ≤ end }
    ensures rest_le_end { result.rest ≤ end }
{
    if at == end || table[at] == b'#' {
        return only(Case::Comment, end);
    }
    let colon = find(table, at, end, b':');
    let space = find(table, at, colon, b' ');
    if space == colon || colon == end {
        return only(Case::Bad, end);
    }
    Head {
        case: case_of(table[at]),
        start: space + 1,
        colon,
        rest: colon + 1,
    }
}

// How many bytes a call is usually lent, of a search how many words.
fn usual(case: Case) -> usize
    ensures { result ≤ 3080 }
{
    if case == Case::Begin { SETS } else { USUAL }
}

// Where a call's part ends: it has as many bytes or words as the number after the assignment says, or the usual.
fn lent_to(case: Case, text: &[u8]) -> Option<usize>
    ensures { IfSome result (λ to. 16 ≤ to) }
{
    if text.is_empty() {
        return Some(START + usual(case));
    }
    let n = decimal(&text[1..])?;
    if MOST < n { None } else { Some(START + n) }
}

// A case that has no assignment, and is lent the room's first bytes.
fn alone(file: usize, to: usize) -> Ends
    ensures { result.from ≤ result.to }
{
    Ends {
        file,
        all: file,
        from: 0,
        to,
    }
}

// The file of a call, before a semicolon, its assignment, its ranges or the file that is said to be written, and the rest.
fn called(bytes: &mut [u8], begun: usize, case: Case, text: &[u8]) -> Option<Ends>
    ensures { IfSome result (λ ends. ends.from ≤ ends.to) }
{
    let end = find(text, 0, text.len(), b';');
    if end == text.len() {
        return None;
    }
    let file = appended(bytes, begun, &text[..end])?;
    let start = end + 1;
    let stop = find(text, start, text.len(), b';');
    Some(Ends {
        file,
        all: appended(bytes, file, &text[start..stop])?,
        from: START,
        to: lent_to(case, &text[stop..])?,
    })
}

// How many bytes an output has: all of the room, or few.
fn output(case: Case, room: usize) -> usize {
    match case {
        Case::Print | Case::List => room,
        Case::PrintShort | Case::ListShort => SHORT,
        Case::Read
        | Case::Least
        | Case::Check
        | Case::Bounds
        | Case::Normalize
        | Case::Flatten
        | Case::Begin
        | Case::Beginning
        | Case::Comment
        | Case::NormalizeAgain
        | Case::FlattenAgain
        | Case::Bad => 0,
    }
}

// The bytes of a case, by what its line asks for, where they are written as they must be.
fn filled(bytes: &mut [u8], begun: usize, case: Case, text: &[u8], room: usize) -> Option<Ends>
    ensures { IfSome result (λ ends. ends.from ≤ ends.to) }
{
    match case {
        Case::Least | Case::Check | Case::Bounds | Case::Normalize | Case::Flatten | Case::Begin =>
            called(bytes, begun, case, text),
        Case::Beginning => Some(alone(appended(bytes, 0, text)?, 0)),
        Case::Read
        | Case::Print
        | Case::PrintShort
        | Case::List
        | Case::ListShort
        | Case::Comment
        | Case::NormalizeAgain
        | Case::FlattenAgain
        | Case::Bad => Some(alone(appended(bytes, begun, text)?, output(case, room))),
    }
}

// The line with its case, where there are so many bytes for it, and a room of so many.
fn fitted(head: Head, ends: Option<Ends>, begun: usize, len: usize, room: usize) -> Line
    requires start_le_colon { head.start ≤ head.colon }
    requires from_le_to { IfSome ends (λ e. e.from ≤ e.to) }
    ensures start_le_colon_2 { result.start ≤ result.colon }
    ensures colon_le_colon { result.colon ≤ head.colon }
    ensures file_le_all { result.file ≤ result.all }
    ensures all_le_len { result.all ≤ len }
    ensures from_le_to_2 { result.from ≤ result.to }
    ensures to_le_room { result.to ≤ room }
{
    let case = head.case;
    match ends {
        Some(ends) if ends.all <= len && ends.file <= ends.all && ends.to <= room => Line {
            case,
            start: head.start,
            colon: head.colon,
            file: ends.file,
            all: ends.all,
            from: ends.from,
            to: ends.to,
            begun: if case == Case::Beginning {
                ends.all
            } else {
                begun
            },
        },
        _ => Line {
            begun,
            ..Line::default()
        },
    }
}

// The line that starts at `at`, taken apart.
pub fn parsed(bytes: &mut [u8], begun: usize, table: &[u8], at: usize, room: usize) -> Line
    requires { at ≤ length table.now }
    ensures start_le_colon { result.start ≤ result.colon }
    ensures colon_in_bounds { result.colon ≤ length table.now }
    ensures file_le_all { result.file ≤ result.all }
    ensures all_in_bounds { result.all ≤ length bytes.new }
    ensures from_le_to { result.from ≤ result.to }
    ensures to_le_room { result.to ≤ room }
{
    let end = find(table, at, table.len(), b'\n');
    let head = head_of(table, at, end);
    let rest = head.rest;
    let ends = filled(bytes, begun, head.case, &table[rest..end], room);
    fitted(head, ends, begun, bytes.len(), room)
}

// Whether a line says which file is written.
pub fn is_said(line: Line) -> bool {
    matches!(line.case, Case::Normalize | Case::Flatten) && line.file < line.all
}

// The line that tries the file that is said to be written.
pub fn again(line: Line) -> Line
    ensures file_value { result.file ≡ line.file }
    ensures all_value { result.all ≡ line.all }
    ensures from_value { result.from ≡ line.from }
    ensures to_value { result.to ≡ line.to }
{
    let case = if line.case == Case::Flatten {
        Case::FlattenAgain
    } else {
        Case::NormalizeAgain
    };
    Line { case, ..line }
}

// Where the line after the one that starts at `at` starts, or the table's end.
pub fn next(table: &[u8], at: usize) -> usize
    requires { at < length table.now }
    ensures { at < result }
{
    let end = find(table, at, table.len(), b'\n');
    if end == table.len() { end } else { end + 1 }
}
