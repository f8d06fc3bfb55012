// The plain part of a nested file: the fields before its first tree.
#![tactic(auto)]

ghost use Rattle.plainpart.specs.PlainPart.{FirstTree, Plains};

use fields::cursor::{Cursor, Field};
use format::Format;
use program::{Counts, Refusal, Rejection};

#[derive(Drop)]
pub struct Tag {}

impl Tag {
    // The tag of a tree.
    pub const TREE: u8 = 5;
}

// Where the first tree stands; where there is none, or a field before it is cut short, the file's end.
fn first_tree(file: &[u8]) -> usize
    ensures { FirstTree file.now result }
{
    let mut cursor = Cursor::new();
    loop {
        let at = cursor.at;
        let Field::Whole {
            tag,
            start,
            len,
            next,
        } = cursor.field(file)
        else {
            return file.len();
        };
        if tag == Tag::TREE {
            return at;
        }
        cursor = next;
    }
}

// Reads the plain part as a plain file; the whole file's length is judged first.
pub fn read_plain(file: &[u8]) -> Result<(Counts, usize), Rejection>
    ensures { Plains file.now result }
{
    if Format::MAX_FILE < file.len() {
        return Err(Rejection {
            why: Refusal::FileTooLong,
            at: 0,
        });
    }
    let from = first_tree(file);
    let counts = fields::scan::scan(&file[..from])?;
    Ok((counts, from))
}
