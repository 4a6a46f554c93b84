//! The names of a text's signals.

/// The names of a text's signals: the first `count` of the list.
// No ArrayVec: these names can be copied, and an ArrayVec cannot.
#[derive(Clone, Copy)]
pub struct Names<'a> {
    pub list: [&'a [u8]; 4],
    pub count: u32,
}

impl<'a> Names<'a> {
    ghost use Rattle.std.specs.Prelude.{◌≡◌, ◌+◌, ◌<◌, ◌≤◌, length, take};
    ghost use Rattle.hoa_grammar.specs.Documents.{most_signals, alike};
    ghost use Rattle.hoa_grammar.specs.Rows.{none, more, some};
    ghost use Rattle.hoa_document.specs.Naming.{row_of};

    /// No names.
    pub(crate) fn new() -> Self
        ensures count { result.count ≡ 0 }
        ensures names { row_of result ≡ none }
    {
        Names {
            list: [b""; 4],
            count: 0,
        }
    }

    /// The names, in their order; all that the list holds, if the count is past them.
    pub fn as_slice(&self) -> &[&'a [u8]]
        ensures names { result.now ≡ take self.now.count self.now.list }
        ensures len { self.now.count ≤ most_signals → length result.now ≡ self.now.count }
    {
        &self.list[..self.list.len().min(self.count as usize)]
    }

    /// Whether one of the names is this one.
    pub(crate) fn contains(&self, name: &[u8]) -> bool
        requires { self.now.count ≤ most_signals }
        ensures { result ≡ some (alike name.now) (row_of self.now) }
    {
        self.as_slice().contains(&name)
    }

    /// Adds a name behind the others.
    pub(crate) fn push(&mut self, name: &'a [u8])
        requires { self.old.count < most_signals }
        ensures count { self.new.count ≡ self.old.count + 1 }
        ensures names { row_of self.new ≡ more (row_of self.old) name.now }
    {
        self.list[self.count as usize] = name;
        self.count += 1;
    }
}
