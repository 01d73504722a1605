//! Doubly linked lists that are linked by index.

ghost use Rattle.std.specs.Prelude.{◌≡◌, ◌+◌, ◌<◌, ◌≤◌, ℕ, List, [], ◌∷◌, ◌++◌, length, true, false, ◌==◌, if◌then◌else◌, IfSome, IfOk, OnOk, OnErr, MatchOption, slice_get, slice_index_or};
ghost use Rattle.spu_word.specs.Lists.{IsLinked, slots_on, stands_on, without};
ghost use Rattle.spu_word.specs.Linking.{modify_some, modify_none, with_next, with_previous, with_first, with_last, free, empty, slots_without, ends_without, slots_with, ends_with};

use crate::sequence::OutOfMemory;
use std::alloc::Global;

/// A slot: the list that it stands on, and its neighbours there.
#[derive(Clone, Copy, Debug)]
pub struct Slot {
    pub list: Option<u32>,
    pub previous: Option<usize>,
    pub next: Option<usize>,
}

/// The first and the last slot of a list.
#[derive(Clone, Copy, Debug)]
pub struct Ends {
    pub first: Option<usize>,
    pub last: Option<usize>,
}

/// A slot on no list.
const FREE: Slot = Slot {
    list: None,
    previous: None,
    next: None,
};

/// The ends of an empty list.
const EMPTY: Ends = Ends {
    first: None,
    last: None,
};

/// A list of slots for each list number. A slot stands on one list at most, and once there; it is
/// put at the end of a list, or taken out of it, in constant time and with no memory.
#[derive(Drop)]
pub struct Chains {
    slots: Vec<Slot>,
    ends: Vec<Ends>,
    pub ghost linked: { IsLinked slots.items ends.items (slots_on slots.items ends.items) },
}

/// Makes `to` the next one of a slot, if there is one.
fn set_next(slots: &mut Vec<Slot>, at: Option<usize>, to: Option<usize>)
    requires { IfSome at (λ s. s < length slots.old.items) }
    ensures { slots.new.items ≡ modify_some (with_next to) slots.old.items at }
{
    match at {
        Some(s) => slots[s].next = to,
        None => {}
    }
}

/// Makes `to` the previous one of a slot, if there is one.
fn set_previous(slots: &mut Vec<Slot>, at: Option<usize>, to: Option<usize>)
    requires { IfSome at (λ s. s < length slots.old.items) }
    ensures { slots.new.items ≡ modify_some (with_previous to) slots.old.items at }
{
    match at {
        Some(s) => slots[s].previous = to,
        None => {}
    }
}

/// Makes `to` the first one of a list, if no slot stands before it.
fn set_first(ends: &mut Vec<Ends>, list: usize, previous: Option<usize>, to: Option<usize>)
    requires { list < length ends.old.items }
    ensures { ends.new.items ≡ modify_none (with_first to) ends.old.items list previous }
{
    match previous {
        Some(_) => {}
        None => ends[list].first = to,
    }
}

/// Makes `to` the last one of a list, if no slot stands after it.
fn set_last(ends: &mut Vec<Ends>, list: usize, next: Option<usize>, to: Option<usize>)
    requires { list < length ends.old.items }
    ensures { ends.new.items ≡ modify_none (with_last to) ends.old.items list next }
{
    match next {
        Some(_) => {}
        None => ends[list].last = to,
    }
}

/// Links a slot out of its list: its neighbours become neighbours.
fn link_out(slots: &mut Vec<Slot>, ends: &mut Vec<Ends>, list: usize, slot: usize)
    requires list { list < length ends.old.items }
    requires slot { slot < length slots.old.items }
    requires previous { IfSome (slice_index_or slots.old.items slot free).previous (λ s. s < length slots.old.items) }
    requires next { IfSome (slice_index_or slots.old.items slot free).next (λ s. s < length slots.old.items) }
    ensures slots { slots.new.items ≡ slots_without slots.old.items slot }
    ensures ends { ends.new.items ≡ ends_without slots.old.items ends.old.items list slot }
{
    let here = slots[slot];
    set_next(slots, here.previous, here.next);
    set_previous(slots, here.next, here.previous);
    set_first(ends, list, here.previous, here.next);
    set_last(ends, list, here.next, here.previous);
    slots[slot] = FREE;
}

/// Links a slot behind the last one of a list.
fn link_in(slots: &mut Vec<Slot>, ends: &mut Vec<Ends>, list: u32, slot: usize)
    requires list { list < length ends.old.items }
    requires slot { slot < length slots.old.items }
    requires last { IfSome (slice_index_or ends.old.items list empty).last (λ s. s < length slots.old.items) }
    ensures slots { slots.new.items ≡ slots_with slots.old.items ends.old.items list slot }
    ensures ends { ends.new.items ≡ ends_with ends.old.items list slot }
{
    let last = ends[list as usize].last;
    set_next(slots, last, Some(slot));
    set_first(ends, list as usize, last, Some(slot));
    ends[list as usize].last = Some(slot);
    slots[slot] = Slot {
        list: Some(list),
        previous: last,
        next: None,
    };
}

impl Chains {
    ghost use Rattle.spu_word.specs.Chains.{lists_of, slot_count, list_count};

    /// That many empty lists, with the numbers from 0 on, and no slot.
    pub fn new(alloc: Global, lists: u32) -> Result<Chains, OutOfMemory>
        ensures lists { IfOk result (λ c. (l : ℕ) → lists_of c l ≡ []) }
        ensures count { IfOk result (λ c. list_count c ≡ lists) }
        ensures slots { IfOk result (λ c. slot_count c ≡ 0) }
    {
        let mut ends = Vec::new(alloc);
        for _ in 0..lists {
            ends.push(EMPTY)?;
        }
        Ok(Chains {
            slots: Vec::new(alloc),
            ends,
        })
    }

    /// Adds a slot that is on no list, and gives its number: the count of slots before. After a
    /// refusal the slots and the lists are as they were.
    pub fn add_slot(&mut self) -> Result<usize, OutOfMemory>
        ensures number { IfOk result (λ s. s ≡ slot_count self.old) }
        ensures more { OnOk result (slot_count self.new ≡ slot_count self.old + 1) }
        ensures same { OnErr result (slot_count self.new ≡ slot_count self.old) }
        ensures lists { (l : ℕ) → lists_of self.new l ≡ lists_of self.old l }
        ensures count { list_count self.new ≡ list_count self.old }
        ensures free { OnOk result ((l : ℕ) → stands_on (lists_of self.new l) (slot_count self.old) ≡ false) }
    {
        let slot = self.slots.len();
        self.slots.push(FREE)?;
        Ok(slot)
    }

    /// Puts a slot that is on no list behind the last one of a list.
    pub fn append(&mut self, list: u32, slot: usize)
        requires list { list < list_count self.old }
        requires slot { slot < slot_count self.old }
        requires free { (l : ℕ) → stands_on (lists_of self.old l) slot ≡ false }
        ensures lists { (l : ℕ) → lists_of self.new l ≡ (if l == list then lists_of self.old l ++ slot ∷ [] else lists_of self.old l) }
        ensures slots { slot_count self.new ≡ slot_count self.old }
        ensures count { list_count self.new ≡ list_count self.old }
    {
        link_in(&mut self.slots, &mut self.ends, list, slot);
    }

    /// Takes a slot out of the list that it stands on. The others keep their order.
    pub fn remove(&mut self, slot: usize)
        requires { (l : ℕ) × (stands_on (lists_of self.old l) slot ≡ true) }
        ensures lists { (l : ℕ) → lists_of self.new l ≡ without slot (lists_of self.old l) }
        ensures slots { slot_count self.new ≡ slot_count self.old }
        ensures count { list_count self.new ≡ list_count self.old }
    {
        match self.slots[slot].list {
            Some(list) => link_out(&mut self.slots, &mut self.ends, list as usize, slot),
            None => {}
        }
    }

    /// The first slot of a list, None exactly where it is empty.
    pub fn first(&self, list: u32) -> Option<usize>
        requires { list < list_count self.now }
        ensures first { result ≡ slice_get (lists_of self.now list) 0 }
        ensures slot { IfSome result (λ s. s < slot_count self.now) }
    {
        self.ends[list as usize].first
    }

    /// The slot behind one that is on a list, None exactly where it is the last.
    pub fn next(&self, slot: usize) -> Option<usize>
        requires { (l : ℕ) × (stands_on (lists_of self.now l) slot ≡ true) }
        ensures next { (l k : ℕ) → slice_get (lists_of self.now l) k ≡ Some slot → result ≡ slice_get (lists_of self.now l) (k + 1) }
        ensures slot { IfSome result (λ s. s < slot_count self.now) }
    {
        self.slots[slot].next
    }

    /// The list that a slot is on, None exactly where it is on none. No slot stands twice.
    pub fn list_of(&self, slot: usize) -> Option<u32>
        requires { slot < slot_count self.now }
        ensures list { MatchOption result ((l : ℕ) → stands_on (lists_of self.now l) slot ≡ false) (λ l. stands_on (lists_of self.now l) slot ≡ true) }
        ensures once { (l m i j : ℕ) → slice_get (lists_of self.now l) i ≡ Some slot
            → slice_get (lists_of self.now m) j ≡ Some slot → (l ≡ m) × (i ≡ j) }
    {
        self.slots[slot].list
    }
}

#[cfg(test)]
mod tests {
    use super::*;
    use std::test::Fail;

    // A new slot at the end of list 0.
    fn add(c: &mut Chains) -> Result<(), Fail> {
        let slot = c.add_slot().ok().ok_or("memory")?;
        if !c.ends.is_empty() && c.list_of(slot).is_none() {
            c.append(0, slot);
        }
        Ok(())
    }

    // The slot behind another one, where that is on a list.
    fn behind(c: &Chains, slot: usize) -> Option<usize> {
        if slot < c.slots.len() && c.list_of(slot).is_some() {
            c.next(slot)
        } else {
            None
        }
    }

    #[test]
    fn takes_one_out(rt: HostRuntime) -> Result<(), Fail> {
        let mut c = Chains::new(rt.alloc(), 2).ok().ok_or("memory")?;
        add(&mut c)?;
        add(&mut c)?;
        add(&mut c)?;
        assert_eq!(rt; behind(&c, 0), Some(1));
        if c.slots.len() == 3 && c.list_of(1).is_some() {
            c.remove(1);
        }
        assert_eq!(rt; behind(&c, 0), Some(2));
        if c.slots.len() == 3 {
            assert_eq!(rt; c.list_of(1), None);
        }
        assert_eq!(rt; behind(&c, 2), None);
        if c.ends.len() == 2 {
            assert_eq!(rt; c.first(0), Some(0));
            assert_eq!(rt; c.first(1), None);
        }
        Ok(())
    }
}
