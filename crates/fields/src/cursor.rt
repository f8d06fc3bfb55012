// Fields: a tag of one byte, a length of two, and a value.
ghost use Rattle.std.specs.Prelude.{◌≡◌};
ghost use Rattle.fields.specs.Standing.{field_at};

#[derive(Clone, Copy)]
pub struct Cursor {
    pub at: usize,
}

// What stands at a cursor.
#[derive(Clone, Copy)]
pub enum Field {
    Whole {
        tag: u8,
        start: usize,
        len: usize,
        next: Cursor,
    },
    Short,
    End,
}

impl Cursor {
    // The bytes of a tag and a length.
    pub const HEADER: usize = 3;

    pub fn new() -> Self
        ensures { result.at ≡ 0 }
    {
        Cursor { at: 0 }
    }

    pub fn field(self, file: &[u8]) -> Field
        ensures { result ≡ field_at file.now self.at }
    {
        let at = self.at;
        if file.len() <= at {
            return Field::End;
        }
        if file.len() - at < Cursor::HEADER {
            return Field::Short;
        }
        let tag = file[at];
        let len = format::unsigned_at(file, at + 1);
        let start = at + Cursor::HEADER;
        if file.len() - start < len {
            return Field::Short;
        }
        Field::Whole {
            tag,
            start,
            len,
            next: Cursor { at: start + len },
        }
    }
}
