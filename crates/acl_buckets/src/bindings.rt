//! Bindings in buckets.
ghost use Rattle.std.specs.Prelude.{◌≡◌, ℕ, ◌+◌, ◌-◌, ◌*◌, ◌^◌, ◌<◌, ◌≤◌, ◌++◌, min, [], length, option_copied, OnOk};
ghost use Rattle.base_rows.specs.Addresses.{addr_sort_key};
ghost use Rattle.base_rows.specs.Sortable.{SortKeysAscend, row_at, rows_under};
ghost use Rattle.base_rows.specs.Edits.{edited};
ghost use Rattle.acl_model.specs.SortKeys.{text_sort_key, binding_sort_key};
ghost use Rattle.acl_buckets.specs.BindingBuckets.{HasRoomByKey, AreFoundByKey, AreKeysCleared, bindings_of_key, index_by_key};

use crate::binding_parts::{Bucket, bindings_at, clear_buckets, make_all, make_room};
use acl_model::{Binding, BoundKey, KeyText};
use base_rows::{Edit, SortedRows, Steps};
use mud_base::Memory;
use std::alloc::Global;
use std::marker::Model;
use std::sync::ledger::Ledger;

/// Bindings in ascending order of their sort keys, each sort key once. Those of each key stand by
/// themselves, in a bucket that is found by the key without a step. Contracts see all bindings in
/// one list, and for each key how many more can be added without memory.
///
/// A bucket whose last binding went, or that was made for a plan that wasn't kept, stays until
/// there are twice as many buckets as were left when the empty ones went the last time, and at
/// least 16; then `make_room` takes the empty ones away. So there are at most twice as many buckets
/// as had bindings then, or 16, and those that one plan adds.
#[derive(Drop)]
pub struct BindingBuckets {
    buckets: Vec<Bucket>,
    none: SortedRows<Binding>,
    limit: usize,
}

impl Model for BindingBuckets {
    ghost use Rattle.acl_buckets.specs.BindingBuckets.{KeptBindings};
    ghost use Rattle.acl_buckets.specs.BindingParts.{joined, room_in, AreKept};

    ghost Value = { KeptBindings };

    ghost view = { λ s. record { rows = joined s.buckets.items; room = room_in s.buckets.items; limit = s.limit } };

    ghost invariant = { λ s. AreKept s.buckets.items s.none.rows };
}

impl BindingBuckets {
    /// No bindings, and no room. It takes no memory.
    pub fn new(alloc: Global) -> BindingBuckets
        ensures rows { result.rows ≡ [] }
        ensures room { result.room ≡ [] }
        ensures limit { result.limit ≡ 16 }
    {
        BindingBuckets {
            buckets: Vec::new(alloc),
            none: SortedRows::new(alloc),
            limit: 16,
        }
    }

    /// Does nothing: its contract says that the bindings are in order.
    pub fn tell_order(&self)
        ensures { SortKeysAscend binding_sort_key self.now.rows }
    {
        let _kept = &self.buckets;
    }

    /// The bindings of a key.
    fn bucket(&self, key: KeyText<'_>) -> &SortedRows<Binding>
        ensures rows { result.now.rows ≡ rows_under binding_sort_key (text_sort_key key.entry.kind key.entry.text.now) self.now.rows }
        ensures few { length result.now.rows ≤ length self.now.rows }
    {
        bindings_at(self.buckets.as_slice(), &self.none, key)
    }

    /// The binding of a key and an address. Each binding that is read is one step: at least one
    /// where the key has bindings, and no more than their number has binary digits.
    pub fn get_counted<L: Ledger>(
        &self,
        key: &BoundKey<'_>,
        steps: &mut Steps<L>,
    ) -> Option<&Binding>
        ensures row { option_copied result ≡ row_at binding_sort_key (text_sort_key key.entry.now.key.kind key.entry.now.key.text.now ++ addr_sort_key key.entry.now.addr) self.now.rows }
        ensures least { steps.old + min 1 (length (rows_under binding_sort_key (text_sort_key key.entry.now.key.kind key.entry.now.key.text.now) self.now.rows)) ≤ steps.new }
        ensures own { (b : ℕ) → length (rows_under binding_sort_key (text_sort_key key.entry.now.key.kind key.entry.now.key.text.now) self.now.rows) < 2 ^ b → steps.new ≤ steps.old + b }
        ensures most { (b : ℕ) → length self.now.rows < 2 ^ b → steps.new ≤ steps.old + b }
    {
        self.bucket(key.key).get_counted(key, steps)
    }

    /// The index of a binding's sort key among the bindings of its key, or else the index at which
    /// it belongs there, in as many steps.
    pub fn find_counted<L: Ledger>(
        &self,
        binding: &Binding,
        steps: &mut Steps<L>,
    ) -> Result<usize, usize>
        ensures index { result ≡ index_by_key binding.now self.now.rows }
        ensures least { steps.old + min 1 (length (bindings_of_key binding.now.key self.now.rows)) ≤ steps.new }
        ensures most { 2 ^ (steps.new - steps.old) ≤ 2 * length (bindings_of_key binding.now.key self.now.rows) + 1 }
        ensures digits { (b : ℕ) → length self.now.rows < 2 ^ b → steps.new ≤ steps.old + b }
    {
        self.bucket(binding.key.key_text())
            .find_counted(binding, steps)
    }

    /// The bindings of a key, each of which is one step.
    pub fn rows_under_counted<L: Ledger>(
        &self,
        key: KeyText<'_>,
        steps: &mut Steps<L>,
    ) -> &[Binding]
        ensures rows { result.now ≡ rows_under binding_sort_key (text_sort_key key.entry.kind key.entry.text.now) self.now.rows }
        ensures counted { steps.new ≡ steps.old + length result.now }
    {
        let bucket = self.bucket(key);
        steps.add(bucket.len() as u64);
        bucket.rows()
    }

    /// Makes room for a binding by each of these edits. The bindings stay, also where there is no
    /// memory for it.
    pub fn make_room(
        &mut self,
        alloc: Global,
        edits: &SortedRows<Edit<Binding>>,
    ) -> Result<(), Memory>
        ensures rows { self.new.rows ≡ self.old.rows }
        ensures cleared { AreKeysCleared edits.now.rows self.old self.new }
        ensures ok { OnOk result (HasRoomByKey edits.now.rows self.new.room) }
    {
        self.limit = clear_buckets(&mut self.buckets, self.limit);
        make_room(alloc, &mut self.buckets, edits)
    }

    /// Makes each of these edits, each of which has the index of its sort key among the bindings of
    /// its key. Each is one step, and no memory is taken. It moves bindings of the keys of the
    /// edits alone.
    pub fn make_edits<L: Ledger>(&mut self, edits: SortedRows<Edit<Binding>>, steps: &mut Steps<L>)
        requires room { HasRoomByKey edits.rows self.old.room }
        requires found { AreFoundByKey self.old.rows edits.rows }
        ensures limit { self.new.limit ≡ self.old.limit }
        ensures rows { self.new.rows ≡ edited binding_sort_key edits.rows self.old.rows }
        ensures counted { steps.new ≡ steps.old + length edits.rows }
    {
        make_all(&mut self.buckets, edits, steps);
    }
}
