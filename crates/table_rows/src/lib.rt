//! One row in the order of its number and in the order of its name: two kinds of rows, and two tables that hold them at once.
#![tactic(auto)]

ghost use Rattle.table_rows.specs.Keys.{number_of, downward, name_of, by_name};
ghost use Rattle.std.specs.Cmp.{nat_cmp_total, back_total};
ghost use Rattle.std.specs.Cmp.Lexicographic.{lists_total};
ghost use Rattle.std.specs.Ordering.{nat_cmp};
ghost use Rattle.table.proofs.Laws.{total_lawful};

use std::cmp::Ordering;
use table::{Row, Table};

mod methods;
#[cfg(test)]
mod tests;

#[derive(Clone, Copy)]
pub struct Named {
    pub number: u32,
    pub name: [u8; 6],
}

#[derive(Clone, Copy)]
pub struct ByNumber;

#[derive(Clone, Copy)]
pub struct ByName;

/// The order of numbers turned round: an order that is not the key's own.
#[derive(Clone, Copy)]
pub struct HighestFirst;

impl Row<ByNumber> for Named {
    type Key = u32;

    ghost key = { number_of };

    ghost order = { nat_cmp };

    ghost lawful = { total_lawful nat_cmp_total };

    fn key_of(&self) -> u32 {
        self.number
    }

    fn compare(a: &u32, b: &u32) -> Ordering {
        a.cmp(b)
    }
}

impl Row<HighestFirst> for Named {
    type Key = u32;

    ghost key = { number_of };

    ghost order = { downward };

    ghost lawful = { total_lawful (back_total nat_cmp_total) };

    fn key_of(&self) -> u32 {
        let Named { number, .. } = *self;
        number
    }

    fn compare(low: &u32, high: &u32) -> Ordering {
        high.cmp(low)
    }
}

impl Row<ByName> for Named {
    type Key = [u8; 6];

    ghost key = { name_of };

    ghost order = { by_name };

    ghost lawful = { total_lawful (lists_total nat_cmp_total) };

    fn key_of(&self) -> [u8; 6] {
        self.name
    }

    fn compare(a: &[u8; 6], b: &[u8; 6]) -> Ordering {
        a.cmp(b)
    }
}

/// The same rows, by number and by name.
#[derive(Drop)]
pub struct Directory<'a> {
    numbers: Table<'a, Named, ByNumber>,
    names: Table<'a, Named, ByName>,
}
