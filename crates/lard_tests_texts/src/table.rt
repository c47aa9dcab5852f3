//! Each call once, with values that have to be spent.

use crate::compare::same;
use lard_table::Table;

/// A value that has to be spent.
struct Ticket(u32);

impl Ticket {
    fn spend(self) -> u32 {
        let Ticket(number) = self;
        number
    }
}

fn spent(ticket: Option<Ticket>) -> Option<u32> {
    match ticket {
        Some(ticket) => Some(ticket.spend()),
        None => None,
    }
}

/// Sets a value, where there is memory for it, and answers the one before.
fn set(table: &mut Table<Ticket>, number: u32, value: u32) -> Option<u32> {
    match table.insert(number, Ticket(value)) {
        Ok(before) => return spent(before),
        Err(failed) => {
            let (_, ticket) = failed.value;
            return Some(ticket.spend());
        }
    }
}

/// Spends what is left, and the table.
fn finish(mut table: Table<Ticket>) {
    while let Some(ticket) = table.pop() {
        ticket.spend();
    }
    table.destroy_empty();
}

fn look(table: &Table<Ticket>, number: u32) -> Option<u32> {
    match table.get(number) {
        Some(Ticket(value)) => Some(*value),
        None => None,
    }
}

#[test]
fn values_are_kept_by_their_numbers(rt: HostRuntime) {
    let mut table = Table::new(rt.alloc());
    let before = (
        set(&mut table, 7, 70),
        set(&mut table, 2, 20),
        set(&mut table, 7, 71),
    );
    let found = (look(&table, 7), look(&table, 2), look(&table, 3));
    let first = spent(table.pop());
    let second = spent(table.pop());
    let none = spent(table.pop());
    finish(table);
    same(&rt, &before, &(None, None, Some(70)));
    same(&rt, &found, &(Some(71), Some(20), None));
    same(&rt, &(first, second, none), &(Some(20), Some(71), None));
}

/// The least number above this one, and its value.
fn above(table: &Table<Ticket>, number: u32) -> Option<(u32, u32)> {
    match table.next_above(number) {
        Some((next, Ticket(value))) => Some((next, *value)),
        None => None,
    }
}

#[test]
fn numbers_come_in_their_order(rt: HostRuntime) {
    let mut table = Table::new(rt.alloc());
    let before = (
        set(&mut table, 7, 70),
        set(&mut table, 2, 20),
        set(&mut table, 4_294_967_295, 1),
        set(&mut table, 5, 50),
    );
    let all = table.len();
    let removed = (spent(table.remove(5)), spent(table.remove(5)));
    let left = table.len();
    let next = (
        above(&table, 0),
        above(&table, 2),
        above(&table, 6),
        above(&table, 7),
        above(&table, 4_294_967_295),
    );
    finish(table);
    same(&rt, &before, &(None, None, None, None));
    same(&rt, &(all, left), &(4, 3));
    same(&rt, &removed, &(Some(50), None));
    let last = Some((4_294_967_295, 1));
    let want = (Some((2, 20)), Some((7, 70)), Some((7, 70)), last, None);
    same(&rt, &next, &want);
}
