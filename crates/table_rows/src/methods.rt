ghost use Rattle.std.specs.Prelude.{◌≡◌, [], is_ok, if◌then◌else◌};
ghost use Rattle.std.specs.Ordering.{nat_cmp};
ghost use Rattle.table.specs.Rows.{Laws, found, placed, without};
ghost use Rattle.table_rows.specs.Directories.{in_numbers, in_names, admits, less_name};
ghost use Rattle.table_rows.specs.Keys.{number_of, name_of, by_name};

use crate::{ByName, ByNumber, Directory, Named};
use table::{NotAdded, Table, laws_stand};

impl<'a> Directory<'a> {
    pub fn new(numbers: &'a mut [Named], names: &'a mut [Named]) -> Directory<'a>
        ensures numbers { in_numbers result ≡ [] }
        ensures names { in_names result ≡ [] }
    {
        Directory {
            numbers: Table::new(numbers, ByNumber),
            names: Table::new(names, ByName),
        }
    }

    /// The row of a number.
    pub fn numbered(&self, number: u32) -> Option<Named>
        ensures { result ≡ found number_of nat_cmp number (in_numbers self.now) }
    {
        self.numbers.get(number)
    }

    /// The row of a name.
    pub fn named(&self, name: [u8; 6]) -> Option<Named>
        ensures { result ≡ found name_of by_name name (in_names self.now) }
    {
        self.names.get(name)
    }

    /// Adds a row to both tables, or to none.
    pub fn add(&mut self, e: Named) -> Result<(), NotAdded>
        ensures answer { result ≡ admits self.old e }
        ensures numbers { in_numbers self.new ≡ (if is_ok result then placed number_of nat_cmp e (in_numbers self.old) else in_numbers self.old) }
        ensures names { in_names self.new ≡ (if is_ok result then placed name_of by_name e (in_names self.old) else in_names self.old) }
    {
        self.numbers.add(e)?;
        let added = self.names.add(e);
        if added.is_err() {
            let _ = self.numbers.remove(e.number);
        }
        added
    }

    /// Takes the row of a number out of both tables.
    pub fn remove(&mut self, number: u32) -> Option<Named>
        ensures answer { result ≡ found number_of nat_cmp number (in_numbers self.old) }
        ensures numbers { in_numbers self.new ≡ without number_of nat_cmp number (in_numbers self.old) }
        ensures names { in_names self.new ≡ less_name result (in_names self.old) }
    {
        let e = self.numbers.remove(number)?;
        let _ = self.names.remove(e.name);
        Some(e)
    }
}

/// The laws of the entries, at both kinds of rows.
pub fn both_lawful()
    ensures numbers { Laws number_of nat_cmp }
    ensures names { Laws name_of by_name }
{
    laws_stand::<ByNumber, Named>();
    laws_stand::<ByName, Named>();
}
