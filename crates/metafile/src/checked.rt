ghost use Rattle.std.specs.Prelude.{◌≡◌};

// A file whose header stands: its bytes up to the stated end, the size of its object table, and where its first record lies.
// No invariant: no caller needs what check says of these, and what is proved of every `Checked` would be said of fewer.
#[derive(Clone, Copy)]
pub struct Checked<'a> {
    pub(crate) bytes: &'a [u8],
    pub(crate) objects: u16,
    pub(crate) first: usize,
}

impl<'a> Checked<'a> {
    // The bytes of the file up to its stated end.
    pub fn bytes(self) -> &'a [u8]
        ensures { result.now ≡ self.entry.bytes.now }
    {
        self.bytes
    }

    // How many objects its table holds.
    pub fn objects(self) -> u16
        ensures { result ≡ self.entry.objects }
    {
        self.objects
    }

    // The offset of its first record.
    pub fn first(self) -> usize
        ensures { result ≡ self.entry.first }
    {
        self.first
    }
}
