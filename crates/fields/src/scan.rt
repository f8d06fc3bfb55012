// Reads all fields of a file, one after the other.
ghost use Rattle.fields.specs.Scanning.{Scans};

use crate::checks;
use crate::cursor::{Cursor, Field};
use format::Format;
use program::{Counts, Refusal, Rejection};

pub fn scan(file: &[u8]) -> Result<Counts, Rejection>
    ensures { Scans file.now result }
{
    if Format::MAX_FILE < file.len() {
        return Err(Rejection {
            why: Refusal::FileTooLong,
            at: 0,
        });
    }
    let mut cursor = Cursor::new();
    let mut counts = Counts::empty();
    let mut before: u8 = 0;
    loop {
        let at = cursor.at;
        let field = cursor.field(file);
        if let Field::End = field {
            return Ok(counts);
        }
        let Field::Whole {
            tag,
            start,
            len,
            next,
        } = field
        else {
            return Err(Rejection {
                why: Refusal::CutShort,
                at,
            });
        };
        let value = &file[start..start + len];
        if let Err(why) = checks::check_field(file, value, tag, before, counts) {
            return Err(Rejection { why, at });
        }
        counts = counts.with(tag);
        cursor = next;
        before = tag;
    }
}
