//! Buckets, in the order of their keys, each with the bindings of one key.
ghost use Rattle.std.specs.Prelude.{◌≡◌, ◌+◌, ◌≤◌, [], length, true, Some, OnOk, IfOk, Ok, option_copied};
ghost use Rattle.base_rows.specs.Sortable.{SortKeysAscend, sort_key_cmp, index_in};
ghost use Rattle.base_rows.specs.Edits.{edited};
ghost use Rattle.acl_model.specs.SortKeys.{text_sort_key, member_sort_key, binding_sort_key};
ghost use Rattle.acl_model.specs.declared.binding.MemberKey.{MemberKey as KeyValue};
ghost use Rattle.acl_buckets.specs.BindingBuckets.{HasRoomByKey, edits_of_key};
ghost use Rattle.acl_rows.specs.ByAddress.{IsCleared};
ghost use Rattle.acl_buckets.specs.BindingParts.{bucket_sort_key, has_rows, has_bucket, part_at, joined, room_in, AreBucketed, AreRoomier, HaveOthers, AreFoundIn, IsEdited};

use acl_model::{Binding, KeyText, MemberKey, order_keys, same_key};
use base_rows::{Edit, PrefixOf, SortedRows, Steps, make_edit};
use mud_base::Memory;
use std::alloc::Global;
use std::cmp::Ordering;
use std::sync::ledger::Ledger;

/// The bindings of one key.
#[derive(Drop)]
pub(crate) struct Bucket {
    key: MemberKey,
    bindings: SortedRows<Binding>,
}

/// How a bucket's key stands to a key.
fn order_bucket(bucket: &Bucket, key: KeyText<'_>) -> Ordering
    ensures { result ≡ sort_key_cmp (bucket_sort_key bucket.now) (text_sort_key key.entry.kind key.entry.text.now) }
{
    order_keys(bucket.key.key_text(), key)
}

/// The index of the bucket of a key, or else the index at which it belongs.
fn bucket_of(buckets: &[Bucket], key: KeyText<'_>) -> Result<usize, usize>
    requires { SortKeysAscend bucket_sort_key buckets.now }
    ensures { result ≡ index_in bucket_sort_key (text_sort_key key.entry.kind key.entry.text.now) buckets.now }
{
    buckets.binary_search_by(|bucket| order_bucket(bucket, key))
}

/// The bindings in the bucket of a key, or else none.
pub(crate) fn bindings_at<'a>(
    buckets: &'a [Bucket],
    none: &'a SortedRows<Binding>,
    key: KeyText<'_>,
) -> &'a SortedRows<Binding>
    requires bucketed { AreBucketed buckets.now }
    requires none { none.now.rows ≡ [] }
    ensures { result.now.rows ≡ (part_at (text_sort_key key.entry.kind key.entry.text.now) buckets.now).rows }
{
    match bucket_of(buckets, key) {
        Ok(index) => match buckets.get(index) {
            Some(bucket) => &bucket.bindings,
            None => none,
        },
        Err(_) => none,
    }
}

/// What the edits of bindings of one key are found by.
#[derive(Clone, Copy)]
struct OfKey<'a>(KeyText<'a>);

impl PrefixOf<Edit<Binding>> for OfKey<'_> {
    ghost use Rattle.acl_model.specs.SortKeys.{text_sort_key};

    ghost prefix = { λ of. text_sort_key of.0.kind of.0.text.now };

    #[tactic(auto, unfolding(base_rows::specs::Edits::edit_sort_key))]
    fn order_to_beginning(&self, edit: &Edit<Binding>) -> Ordering {
        self.0.order_to_beginning(&edit.row)
    }
}

/// Where there are as many buckets as this, those that are empty go. The answer is the number of
/// buckets at which to do so next: twice as many as are left.
pub(crate) fn clear_buckets(buckets: &mut Vec<Bucket>, limit: usize) -> usize
    requires { AreBucketed buckets.old.items }
    ensures rows { joined buckets.new.items ≡ joined buckets.old.items }
    ensures bucketed { AreBucketed buckets.new.items }
    ensures cleared { IsCleared has_rows buckets.old.items buckets.new.items limit result }
{
    if buckets.len() < limit {
        return limit;
    }
    buckets.retain(|bucket| bucket.bindings.len() > 0);
    buckets.len().saturating_mul(2).max(16)
}

/// The index of the bucket of a key; an empty bucket is added where there is none.
fn add_bucket(alloc: Global, buckets: &mut Vec<Bucket>, key: &MemberKey) -> Result<usize, Memory>
    requires { AreBucketed buckets.old.items }
    ensures kept { AreRoomier buckets.old.items buckets.new.items }
    ensures most { length buckets.new.items ≤ length buckets.old.items + 1 }
    ensures others { HaveOthers (member_sort_key key.now) buckets.old.items buckets.new.items }
    ensures ok { IfOk result (λ index. index_in bucket_sort_key (member_sort_key key.now) buckets.new.items ≡ Ok index) }
{
    match bucket_of(buckets.as_slice(), key.key_text()) {
        Ok(index) => Ok(index),
        Err(index) => {
            let key = key.copy()?;
            let bindings = SortedRows::new(alloc);
            buckets.insert(index, Bucket { key, bindings })?;
            Ok(index)
        }
    }
}

/// Makes room for as many bindings more of a key, in its bucket.
fn reserve_bucket(
    alloc: Global,
    buckets: &mut Vec<Bucket>,
    key: &MemberKey,
    more: usize,
) -> Result<(), Memory>
    requires { AreBucketed buckets.old.items }
    ensures kept { AreRoomier buckets.old.items buckets.new.items }
    ensures most { length buckets.new.items ≤ length buckets.old.items + 1 }
    ensures others { HaveOthers (member_sort_key key.now) buckets.old.items buckets.new.items }
    ensures ok { OnOk result (more ≤ (part_at (member_sort_key key.now) buckets.new.items).room) }
{
    let index = add_bucket(alloc, buckets, key)?;
    buckets[index].bindings.reserve(more)
}

/// Whether a key is the last one.
fn is_last(last: Option<&MemberKey>, key: &MemberKey) -> bool
    ensures { result ≡ true → option_copied last.entry ≡ Some key.now }
{
    match last {
        Some(last) => same_key(last, key),
        None => false,
    }
}

/// Makes room for a binding by each edit of a key, in its bucket. Where the last key is this one,
/// there is such room already.
fn reserve_key(
    alloc: Global,
    buckets: &mut Vec<Bucket>,
    edits: &SortedRows<Edit<Binding>>,
    last: Option<&MemberKey>,
    key: &MemberKey,
) -> Result<(), Memory>
    requires bucketed { AreBucketed buckets.old.items }
    requires done { (k : KeyValue) → option_copied last ≡ Some k
        → length (edits_of_key k edits.now.rows) ≤ (part_at (member_sort_key k) buckets.old.items).room }
    ensures kept { AreRoomier buckets.old.items buckets.new.items }
    ensures most { length buckets.new.items ≤ length buckets.old.items + 1 }
    ensures others { HaveOthers (member_sort_key key.now) buckets.old.items buckets.new.items }
    ensures ok { OnOk result (length (edits_of_key key.now edits.now.rows) ≤ (part_at (member_sort_key key.now) buckets.new.items).room) }
{
    if is_last(last, key) {
        return Ok(());
    }
    let more = edits.rows_under(&OfKey(key.key_text())).len();
    reserve_bucket(alloc, buckets, key, more)
}

/// Makes room for a binding by each of these edits, in the buckets of their keys. Edits of one key
/// stand together, so each key is asked for once.
pub(crate) fn make_room(
    alloc: Global,
    buckets: &mut Vec<Bucket>,
    edits: &SortedRows<Edit<Binding>>,
) -> Result<(), Memory>
    requires { AreBucketed buckets.old.items }
    ensures kept { AreRoomier buckets.old.items buckets.new.items }
    ensures most { length buckets.new.items ≤ length buckets.old.items + length edits.now.rows }
    ensures others { (key : KeyValue) → edits_of_key key edits.now.rows ≡ []
        → has_bucket (member_sort_key key) buckets.new.items ≡ has_bucket (member_sort_key key) buckets.old.items }
    ensures ok { OnOk result (HasRoomByKey edits.now.rows (room_in buckets.new.items)) }
{
    let list = edits.rows();
    let mut last = None;
    for edit in list {
        let key = &edit.row.key;
        reserve_key(alloc, buckets, edits, last, key)?;
        last = Some(key);
    }
    Ok(())
}

/// Makes one edit in the bucket of its key, in one step.
fn make_one<L: Ledger>(buckets: &mut Vec<Bucket>, edit: Edit<Binding>, steps: &mut Steps<L>)
    requires bucketed { AreBucketed buckets.old.items }
    requires room { 1 ≤ (part_at (member_sort_key edit.row.key) buckets.old.items).room }
    requires found { edit.found ≡ index_in binding_sort_key (binding_sort_key edit.row) (part_at (member_sort_key edit.row.key) buckets.old.items).rows }
    ensures buckets { IsEdited edit buckets.old.items buckets.new.items }
    ensures counted { steps.new ≡ steps.old + 1 }
{
    match bucket_of(buckets.as_slice(), edit.row.key.key_text()) {
        Ok(index) => make_edit(&mut buckets[index].bindings, edit, steps),
        Err(_) => unreachable!(),
    }
}

/// Makes each of these edits, from the last to the first.
pub(crate) fn make_all<L: Ledger>(
    buckets: &mut Vec<Bucket>,
    edits: SortedRows<Edit<Binding>>,
    steps: &mut Steps<L>,
)
    requires bucketed { AreBucketed buckets.old.items }
    requires room { HasRoomByKey edits.rows (room_in buckets.old.items) }
    requires found { AreFoundIn buckets.old.items edits.rows }
    ensures rows { joined buckets.new.items ≡ edited binding_sort_key edits.rows (joined buckets.old.items) }
    ensures bucketed { AreBucketed buckets.new.items }
    ensures counted { steps.new ≡ steps.old + length edits.rows }
{
    let mut left = edits;
    while !left.is_empty() {
        let edits = left.rows();
        let last = edits.len() - 1;
        let edit = left.take_at(last);
        make_one(buckets, edit, steps);
    }
}
