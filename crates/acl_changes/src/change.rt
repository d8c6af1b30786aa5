//! The edits of rows that a change of bindings leads to.
ghost use Rattle.std.specs.Prelude.{◌≡◌, ℕ, ◌+◌, ◌*◌, ◌^◌, ◌<◌, ◌≤◌, length, min, OnOk, Some, slice_get, IfOk, ◌++◌, ◌∷◌, [], is_some, true};
ghost use Rattle.std.specs.Option.{option_map};
ghost use Rattle.std.specs.List.{filter_map};
ghost use Rattle.base_rows.specs.Sortable.{row_at, set_row, rows_under};
ghost use Rattle.mud_url.specs.Url.{host_of};
ghost use Rattle.acl_model.specs.declared.entry.Entry.{Entry as EntryValue};
ghost use Rattle.acl_model.specs.Keys.{key_of};
ghost use Rattle.acl_model.specs.SortKeys.{binding_sort_key, member_sort_key, text_sort_key};
ghost use Rattle.acl_model.specs.Changes.{for_ever, until_of, replaced};
ghost use Rattle.acl_model.specs.FirstMatch.{entries_of};
ghost use Rattle.acl_model.specs.Match.{is_in_family};
ghost use Rattle.acl_model.specs.Policies.{url_policy};
ghost use Rattle.base_rows.specs.Edits.{edit, edit_sort_key, edited, row_after};
ghost use Rattle.acl_rows.specs.SortKeys.{row_sort_key, named_sort_key};
ghost use Rattle.acl_rows.specs.ByAddress.{index_beside};
ghost use Rattle.acl_rows.specs.Rows as spec;
ghost use Rattle.acl_changes.specs.Patch.{IsPatch};
ghost use Rattle.acl_changes.specs.Touched.{changed_edits, row_key};
ghost use Rattle.acl_changes.specs.Spots.{policy_spots};
ghost use Rattle.acl_changes.specs.Touched as touched;
ghost use Rattle.acl_changes.specs.Keys.{sort_key_of_text};
ghost use Rattle.acl_changes.specs.Fresh.{AreBoundFirst};
ghost use Rattle.acl_changes.specs.Change.{expiry_in, met_expiry, expiry_of_row, after, more_edits, slot_touches, change_state};
ghost use Rattle.acl_changes.specs.Steps.{key_steps, least_step, least_steps, text_look, key_look, key_looks, entry_look, HolderFits};
ghost use Rattle.acl_changes.specs.Policies.{HasCounts, AllHeld};

use crate::policies::{Held, HeldDefaults};
use crate::{EntrySpot, KeyIndex, selector_key};
use acl_buckets::{BindingBuckets, RowBuckets};
use acl_model::{Binding, BoundKey, Entry, MemberKey, Policy, Selector, is_in_family};
use acl_rows::{FoundRow, Owner, PackedAddr, Row, RowKey};
use base_rows::{Edit, KeyOf, SortedRows, Steps};
use mud_base::{Addr, Direction, End, Memory};
use mud_url::MudUrl;
use std::alloc::Global;
use std::cmp::Ordering;
use std::marker::Model;
use std::sync::ledger::Ledger;

/// The expiry of a binding that is kept.
#[tactic(auto, unfolding(acl_model::specs::Changes::until_of))]
fn kept_expiry<L: Ledger>(
    bindings: &BindingBuckets,
    key: &BoundKey<'_>,
    steps: &mut Steps<L>,
) -> Option<End>
    ensures value { result ≡ option_map until_of (row_at binding_sort_key (sort_key_of_text key.entry.now.key.kind key.entry.now.key.text.now key.entry.now.addr) bindings.now.rows) }
    ensures looked { steps.old + min 1 (length (rows_under binding_sort_key (text_sort_key key.entry.now.key.kind key.entry.now.key.text.now) bindings.now.rows)) ≤ steps.new }
    ensures least { steps.old ≤ steps.new }
    ensures most { (b : ℕ) → length bindings.now.rows < 2 ^ b → steps.new ≤ steps.old + b }
{
    match bindings.get_counted(key, steps) {
        Some(binding) => Some(binding.until),
        None => None,
    }
}

/// A policy that is held, with its URL's text and host and its index by keys, and whose rows are
/// its own.
#[derive(Drop)]
pub struct Holding<'a> {
    owner: Owner,
    url: &'a [u8],
    host: &'a [u8],
    policy: &'a Policy,
    keys: &'a KeyIndex,
}

impl<'a> Model for Holding<'a> {
    ghost use Rattle.acl_rows.specs.Rows.{Holder};
    ghost use Rattle.acl_changes.specs.Policies.{HasItsKeys};

    ghost Value = { Holder };

    ghost view = { λ h. (h.owner, record { url = h.url.now; policy = h.policy.now }) };

    ghost invariant = { λ h. HasItsKeys h.url.now h.host.now h.policy.now h.keys.now };
}

/// A change of bindings, over what is kept, and the edits by which the bindings go and come.
#[derive(Drop)]
pub struct Change<'a> {
    pub(crate) slots: &'a [Option<Held>],
    pub(crate) bindings: &'a BindingBuckets,
    pub(crate) rows: &'a RowBuckets,
    gone: &'a [Binding],
    come: &'a [Binding],
    edits: &'a SortedRows<Edit<Binding>>,
}

impl<'a> Model for Change<'a> {
    ghost use Rattle.acl_changes.specs.Change.{ChangeState, IsOver};

    ghost Value = { ChangeState };

    ghost view = { λ c. record { slots = c.slots.now; bindings = c.bindings.now.rows; rows = c.rows.now.rows; gone = c.gone.now; come = c.come.now; edits = c.edits.now.rows } };

    ghost invariant = { λ c. IsOver c.slots.now c.bindings.now.rows c.rows.now.rows c.gone.now c.come.now c.edits.now.rows };
}

/// What the edit of a binding is found by.
#[derive(Clone, Copy)]
struct OfBound<'a>(BoundKey<'a>);

impl KeyOf<Edit<Binding>> for OfBound<'_> {
    ghost use Rattle.acl_changes.specs.Keys.{sort_key_of_text};

    ghost sort_key = { λ of. sort_key_of_text of.0.key.kind of.0.key.text.now of.0.addr };

    #[tactic(auto, unfolding(base_rows::specs::Edits::edit_sort_key))]
    fn order_to(&self, edit: &Edit<Binding>) -> Ordering {
        self.0.order_to(&edit.row)
    }
}

/// The expiry of the binding of an edit's sort key once the edit is made.
#[tactic(auto, unfolding(base_rows::specs::Edits::row_after, acl_model::specs::Changes::until_of))]
fn expiry_after(edit: &Edit<Binding>) -> Option<End>
    ensures { result ≡ option_map until_of (row_after edit.now) }
{
    if edit.comes {
        Some(edit.row.until)
    } else {
        None
    }
}

impl<'a> Change<'a> {
    /// The expiry of the binding of a key and an address after the change. Its edit is looked up
    /// first: the edits are the call's own, so that is no step.
    fn bound_expiry<L: Ledger>(&self, key: &BoundKey<'_>, steps: &mut Steps<L>) -> Option<End>
        ensures value { result ≡ expiry_in (sort_key_of_text key.entry.now.key.kind key.entry.now.key.text.now key.entry.now.addr) (after self.now) }
        ensures looked { steps.old + text_look self.now key.entry.now.key.kind key.entry.now.key.text.now key.entry.now.addr ≤ steps.new }
        ensures least { steps.old ≤ steps.new }
        ensures most { (b : ℕ) → length self.now.bindings < 2 ^ b → steps.new ≤ steps.old + b }
    {
        let bindings = self.bindings;
        bindings.tell_order();
        match self.edits.get(&OfBound(*key)) {
            Some(edit) => expiry_after(edit),
            None => kept_expiry(bindings, key, steps),
        }
    }

    /// The lesser of an expiry and that of the binding of a selector's key after the change. None
    /// where there is no such binding; a selector with no key asks for none.
    fn selector_expiry<L: Ledger>(
        &self,
        selector: &Selector,
        url: &[u8],
        host: &[u8],
        addr: Addr,
        expiry: End,
        steps: &mut Steps<L>,
    ) -> Option<End>
        requires { host.now ≡ host_of url.now }
        ensures value { result ≡ met_expiry (after self.now) addr expiry (key_of url.now selector.now) }
        ensures looked { steps.old + key_look self.now addr (key_of url.now selector.now) ≤ steps.new }
        ensures least { steps.old ≤ steps.new }
        ensures most { (b : ℕ) → length self.now.bindings < 2 ^ b → steps.new ≤ steps.old + key_steps b (key_of url.now selector.now) }
    {
        match selector_key(selector, url, host) {
            None => Some(expiry),
            Some(key) => {
                let until = self.bound_expiry(&BoundKey { key, addr }, steps);
                lesser(expiry, until)
            }
        }
    }

    /// The least of an expiry and those of the bindings of an address and the keys of these
    /// selectors after the change. None where one of them isn't bound.
    fn least_expiry<L: Ledger>(
        &self,
        selectors: &[Selector],
        url: &[u8],
        host: &[u8],
        addr: Addr,
        first: End,
        steps: &mut Steps<L>,
    ) -> Option<End>
        requires { host.now ≡ host_of url.now }
        ensures value { result ≡ spec.least_expiry (after self.now) addr first (filter_map (key_of url.now) selectors.now) }
        ensures looked { steps.old + key_looks self.now addr (filter_map (key_of url.now) selectors.now) ≤ steps.new }
        ensures least { steps.old ≤ steps.new }
        ensures most { (b : ℕ) → length self.now.bindings < 2 ^ b → steps.new ≤ steps.old + length (filter_map (key_of url.now) selectors.now) * b }
    {
        let mut expiry = first;
        for selector in selectors {
            match self.selector_expiry(selector, url, host, addr, expiry, steps) {
                None => return None,
                Some(next) => expiry = next,
            }
        }
        Some(expiry)
    }

    /// Until when an address meets the member selectors of an entry after the change, where it
    /// does.
    #[tactic(auto, unfolding(acl_rows::specs::Rows::entry_expiry, acl_rows::specs::Rows::member_keys))]
    pub(crate) fn entry_expiry<L: Ledger>(
        &self,
        entry: &Entry,
        url: &[u8],
        host: &[u8],
        addr: Addr,
        steps: &mut Steps<L>,
    ) -> Option<End>
        requires { host.now ≡ host_of url.now }
        ensures value { result ≡ spec.entry_expiry (after self.now) url.now entry.now addr }
        ensures looked { steps.old + entry_look self.now url.now entry.now addr ≤ steps.new }
        ensures least { steps.old ≤ steps.new }
        ensures most { (b : ℕ) → length self.now.bindings < 2 ^ b → steps.new ≤ steps.old + length (spec.member_keys url.now entry.now) * b }
    {
        if !entry.is_membered() || !is_in_family(entry.family, addr) {
            return None;
        }
        let selectors = entry.selectors.as_slice();
        self.least_expiry(selectors, url, host, addr, End(End::NEVER), steps)
    }

    /// The same at the address of a binding of the entry's first key. The expiry by that key is the
    /// binding's, so only the keys of the selectors behind are looked up.
    pub(crate) fn bound_entry_expiry<L: Ledger>(
        &self,
        entry: &Entry,
        behind: &[Selector],
        url: &[u8],
        host: &[u8],
        binding: &Binding,
        steps: &mut Steps<L>,
    ) -> Option<End>
        requires host { host.now ≡ host_of url.now }
        requires first { AreBoundFirst (after self.now) url.now entry.now behind.now (binding.now ∷ []) }
        ensures value { result ≡ spec.entry_expiry (after self.now) url.now entry.now binding.now.addr }
        ensures looked { is_in_family entry.now.family binding.now.addr ≡ true → steps.old + key_looks self.now binding.now.addr (filter_map (key_of url.now) behind.now) ≤ steps.new }
        ensures least { steps.old ≤ steps.new }
        ensures most { (b : ℕ) → length self.now.bindings < 2 ^ b → steps.new ≤ steps.old + length (spec.member_keys url.now entry.now) * b }
    {
        if !is_in_family(entry.family, binding.addr) {
            return None;
        }
        tell_most(binding.until);
        self.least_expiry(behind, url, host, binding.addr, binding.until, steps)
    }

    /// The edit by which the row of a key has this expiry, or by which it goes: where that changes
    /// it.
    pub(crate) fn plan_row<L: Ledger>(
        &self,
        key: RowKey,
        until: Option<End>,
        edits: &mut SortedRows<Edit<Row>>,
        steps: &mut Steps<L>,
    ) -> Result<(), Memory>
        ensures ok { OnOk result (edits.new.rows ≡ changed_edits key (index_beside key.owner key.side key.addr (named_sort_key key) self.now.rows) (expiry_of_row (row_at row_sort_key (named_sort_key key) self.now.rows)) until edits.old.rows) }
        ensures least { steps.old + least_step self.now.rows key ≤ steps.new }
        ensures most { (b : ℕ) → length self.now.rows < 2 ^ b → steps.new ≤ steps.old + b }
    {
        let rows = self.rows;
        let found = rows.find_counted(&key, steps);
        plan_found(edits, key, found, until)
    }

    /// The edit of an entry at an address.
    fn spot_edit<L: Ledger>(
        &self,
        holding: &Holding<'_>,
        spot: &EntrySpot,
        addr: Addr,
        edits: &mut SortedRows<Edit<Row>>,
        steps: &mut Steps<L>,
    ) -> Result<(), Memory>
        requires held { spec.held_by self.now.slots holding.now.0 ≡ Some holding.now.1 }
        requires stands { is_some (spec.entry_at spot.now.number (entries_of spot.now.side holding.now.1.policy)) ≡ true }
        ensures ok { OnOk result (edits.new.rows ≡ more_edits self.now (row_key holding.now.0 spot.now.side addr spot.now.number ∷ []) edits.old.rows) }
        ensures looked { (entry : EntryValue) → spec.entry_at spot.now.number (entries_of spot.now.side holding.now.1.policy) ≡ Some entry
            → steps.old + entry_look self.now holding.now.1.url entry addr + least_step self.now.rows (row_key holding.now.0 spot.now.side addr spot.now.number) ≤ steps.new }
        ensures least { steps.old + least_step self.now.rows (row_key holding.now.0 spot.now.side addr spot.now.number) ≤ steps.new }
        ensures most { (b k u : ℕ) → length self.now.bindings < 2 ^ b → length self.now.rows < 2 ^ k
            → HolderFits holding.now b k u → steps.new ≤ steps.old + u }
    {
        let _kept = &self.slots;
        let entry = holding.entry(*spot);
        let until = self.entry_expiry(entry, holding.url(), holding.host(), addr, steps);
        let row = RowKey {
            owner: holding.owner(),
            side: spot.side,
            addr,
            entry: spot.number,
        };
        self.plan_row(row, until, edits, steps)
    }

    /// The edits of the entries of a holder at an address, where they have the key.
    fn holder_edits<L: Ledger>(
        &self,
        holding: &Holding<'_>,
        key: &MemberKey,
        addr: Addr,
        edits: &mut SortedRows<Edit<Row>>,
        steps: &mut Steps<L>,
    ) -> Result<(), Memory>
        requires { spec.held_by self.now.slots holding.now.0 ≡ Some holding.now.1 }
        ensures ok { OnOk result (edits.new.rows ≡ more_edits self.now (touched.holder_touches key.now addr holding.now) edits.old.rows) }
        ensures read { OnOk result (steps.old + least_steps self.now.rows (touched.holder_touches key.now addr holding.now) ≤ steps.new) }
        ensures least { steps.old ≤ steps.new }
        ensures most { (b k u : ℕ) → length self.now.bindings < 2 ^ b → length self.now.rows < 2 ^ k
            → HolderFits holding.now b k u
            → steps.new ≤ steps.old + length (touched.holder_touches key.now addr holding.now) * u }
    {
        let spots = holding.spots(key);
        for spot in spots {
            self.spot_edit(holding, spot, addr, edits, steps)?;
        }
        Ok(())
    }

    /// The edits of the policy of a slot at an address, where its entries have the key.
    #[tactic(auto, unfolding(crate::specs::Change::slot_touches))]
    fn slot_edits<L: Ledger>(
        &self,
        slot: &Option<Held>,
        n: u16,
        binding: &Binding,
        edits: &mut SortedRows<Edit<Row>>,
        steps: &mut Steps<L>,
    ) -> Result<(), Memory>
        requires stands { slice_get self.now.slots n ≡ Some slot.now }
        ensures ok { OnOk result (edits.new.rows ≡ more_edits self.now (slot_touches binding.now.key binding.now.addr n slot.now) edits.old.rows) }
        ensures read { OnOk result (steps.old + least_steps self.now.rows (slot_touches binding.now.key binding.now.addr n slot.now) ≤ steps.new) }
        ensures least { steps.old ≤ steps.new }
        ensures most { (b k u : ℕ) → length self.now.bindings < 2 ^ b → length self.now.rows < 2 ^ k
            → AllHeld self.now.slots (λ h. HolderFits h b k u)
            → steps.new ≤ steps.old + length (slot_touches binding.now.key binding.now.addr n slot.now) * u }
    {
        match slot {
            None => Ok(()),
            Some(held) => {
                let holding = Holding::of_held(Owner::Url(n), held);
                self.holder_edits(&holding, &binding.key, binding.addr, edits, steps)
            }
        }
    }

    /// The edits at the address of a binding that goes or comes, of each entry that has its key.
    #[tactic(auto, unfolding(crate::specs::Touched::binding_touches))]
    fn binding_edits<L: Ledger>(
        &self,
        binding: &Binding,
        defaults: &Holding<'_>,
        edits: &mut SortedRows<Edit<Row>>,
        steps: &mut Steps<L>,
    ) -> Result<(), Memory>
        requires few { length self.now.slots ≤ 65535 }
        requires default_owner { defaults.now.0 ≡ Owner.Default }
        requires default_held { spec.default_held ≡ defaults.now.1 }
        ensures ok { OnOk result (edits.new.rows ≡ more_edits self.now (touched.binding_touches self.now.slots binding.now) edits.old.rows) }
        ensures read { OnOk result (steps.old + least_steps self.now.rows (touched.binding_touches self.now.slots binding.now) ≤ steps.new) }
        ensures least { steps.old ≤ steps.new }
        ensures most { (b k u : ℕ) → length self.now.bindings < 2 ^ b → length self.now.rows < 2 ^ k
            → AllHeld self.now.slots (λ h. HolderFits h b k u)
            → steps.new ≤ steps.old + length (touched.binding_touches self.now.slots binding.now) * u }
    {
        let slots = self.slots;
        let mut n: u16 = 0;
        for slot in slots {
            self.slot_edits(slot, n, binding, edits, steps)?;
            n += 1;
        }
        self.holder_edits(defaults, &binding.key, binding.addr, edits, steps)
    }

    /// The edits of bindings that go or come.
    fn all_edits<L: Ledger>(
        &self,
        changed: &[Binding],
        defaults: &Holding<'_>,
        edits: &mut SortedRows<Edit<Row>>,
        steps: &mut Steps<L>,
    ) -> Result<(), Memory>
        requires few { length self.now.slots ≤ 65535 }
        requires default_owner { defaults.now.0 ≡ Owner.Default }
        requires default_held { spec.default_held ≡ defaults.now.1 }
        ensures ok { OnOk result (edits.new.rows ≡ more_edits self.now (touched.touches self.now.slots changed.now) edits.old.rows) }
        ensures read { OnOk result (steps.old + least_steps self.now.rows (touched.touches self.now.slots changed.now) ≤ steps.new) }
        ensures least { steps.old ≤ steps.new }
        ensures most { (b k u : ℕ) → length self.now.bindings < 2 ^ b → length self.now.rows < 2 ^ k
            → AllHeld self.now.slots (λ h. HolderFits h b k u)
            → steps.new ≤ steps.old + length (touched.touches self.now.slots changed.now) * u }
    {
        for binding in changed {
            self.binding_edits(binding, defaults, edits, steps)?;
        }
        Ok(())
    }

    /// The edits of the change: with them the rows are those made anew of the bindings after it.
    /// Each sort key that is touched is looked for among the rows of its owner, side and address.
    pub fn plan<L: Ledger>(
        &self,
        alloc: Global,
        defaults: &Holding<'_>,
        steps: &mut Steps<L>,
    ) -> Result<SortedRows<Edit<Row>>, Memory>
        requires few { length self.now.slots ≤ 65535 }
        requires default_owner { defaults.now.0 ≡ Owner.Default }
        requires default_held { spec.default_held ≡ defaults.now.1 }
        ensures ok { IfOk result (λ edits. IsPatch self.now.slots self.now.bindings self.now.slots (after self.now) edits.rows) }
        ensures read { OnOk result (steps.old + least_steps self.now.rows (touched.touches self.now.slots (self.now.gone ++ self.now.come)) ≤ steps.new) }
        ensures most { (b k u : ℕ) → length self.now.bindings < 2 ^ b → length self.now.rows < 2 ^ k
            → AllHeld self.now.slots (λ h. HolderFits h b k u)
            → steps.new ≤ steps.old + length (touched.touches self.now.slots (self.now.gone ++ self.now.come)) * u }
    {
        let bindings = self.bindings;
        bindings.tell_order();
        let mut edits = SortedRows::new(alloc);
        self.all_edits(self.gone, defaults, &mut edits, steps)?;
        self.all_edits(self.come, defaults, &mut edits, steps)?;
        Ok(edits)
    }
}

impl<'a> Change<'a> {
    /// A change of bindings over these, and the edits by which they go and come.
    pub fn new(
        slots: &'a [Option<Held>],
        bindings: &'a BindingBuckets,
        rows: &'a RowBuckets,
        gone: &'a [Binding],
        come: &'a [Binding],
        edits: &'a SortedRows<Edit<Binding>>,
    ) -> Change<'a>
        requires kept { rows.now.rows ≡ spec.rows_of slots.now bindings.now.rows }
        requires made { edited binding_sort_key edits.now.rows bindings.now.rows ≡ replaced gone.now come.now bindings.now.rows }
        ensures { result ≡ change_state slots.now bindings.now.rows rows.now.rows gone.now come.now edits.now.rows }
    {
        Change {
            slots,
            bindings,
            rows,
            gone,
            come,
            edits,
        }
    }
}

impl<'a> Holding<'a> {
    /// A policy that is held, whose rows are to be this owner's.
    pub(crate) fn of_held(owner: Owner, held: &'a Held) -> Holding<'a>
        ensures owner { result.0 ≡ owner }
        ensures held { result.1 ≡ held.now }
        ensures counts { HasCounts result.1.policy }
    {
        Holding {
            owner,
            url: held.url().text(),
            host: held.url().host(),
            policy: held.policy().policy(),
            keys: held.keys(),
        }
    }

    /// Whose rows are the policy's.
    pub(crate) fn owner(&self) -> Owner
        ensures { result ≡ self.now.0 }
    {
        self.owner
    }

    /// The text of the URL; the defaults have none.
    pub(crate) fn url(&self) -> &'a [u8]
        ensures { result.now ≡ self.now.1.url }
    {
        self.url
    }

    /// The host of the URL.
    pub(crate) fn host(&self) -> &'a [u8]
        ensures { result.now ≡ host_of self.now.1.url }
    {
        let _url = self.url;
        self.host
    }

    /// The default entries, which name no URL.
    #[tactic(auto, unfolding(mud_url::specs::Url::host_of, mud_url::specs::Url::authority, mud_url::specs::Url::host_part))]
    pub fn of_defaults(defaults: &'a HeldDefaults) -> Holding<'a>
        ensures owner { result.0 ≡ Owner.Default }
        ensures held { result.1 ≡ url_policy [] defaults.now }
    {
        Holding {
            owner: Owner::Default,
            url: b"",
            host: b"",
            policy: defaults.policy().policy(),
            keys: defaults.keys(),
        }
    }

    /// The entries that have a key: those for what the Thing sends first.
    #[tactic(auto, unfolding(acl_model::specs::SortKeys::member_sort_key))]
    fn spots(&self, key: &MemberKey) -> &'a [EntrySpot]
        ensures { result.now ≡ policy_spots self.now.1.url self.now.1.policy (member_sort_key key.now) }
    {
        let keys = self.keys;
        keys.spots(&key.key_text())
    }

    /// One of the entries.
    fn entry(&self, spot: EntrySpot) -> &'a Entry
        requires { is_some (spec.entry_at spot.number (entries_of spot.side self.now.1.policy)) ≡ true }
        ensures { spec.entry_at spot.number (entries_of spot.side self.now.1.policy) ≡ Some result.now }
    {
        let entries = self.entries(spot.side);
        &entries[usize::from(spot.number) - 1]
    }

    /// The entries of one side.
    #[tactic(auto, unfolding(acl_model::specs::FirstMatch::entries_of))]
    pub(crate) fn entries(&self, side: Direction) -> &'a [Entry]
        ensures { result.now ≡ entries_of side self.now.1.policy }
    {
        let policy = self.policy;
        match side {
            Direction::From => policy.outgoing.as_slice(),
            Direction::To => policy.incoming.as_slice(),
        }
    }
}

/// The row of a key with this expiry.
#[tactic(auto, unfolding(acl_rows::specs::Rows::row))]
pub(crate) fn row_until(key: RowKey, until: End) -> Row
    ensures { result ≡ spec.row key.owner key.side key.addr key.entry until }
{
    Row {
        owner: key.owner,
        side: key.side,
        addr: PackedAddr::new(key.addr),
        entry: key.entry,
        until,
    }
}

/// Plans that the row of this key, which was looked for, has the new expiry, or that it goes where
/// there is none: where that changes it.
#[tactic(auto, unfolding(crate::specs::Touched::changed_edits, crate::specs::Touched::same_expiry, crate::specs::Touched::edit_of))]
pub(crate) fn plan_found(
    edits: &mut SortedRows<Edit<Row>>,
    key: RowKey,
    found: FoundRow,
    new: Option<End>,
) -> Result<(), Memory>
    ensures { OnOk result (edits.new.rows ≡ changed_edits key found.index found.until new edits.old.rows) }
{
    match (found.until, new) {
        (None, None) => Ok(()),
        (None, Some(expiry)) => add_edit(edits, &row_until(key, expiry), true, found.index),
        (Some(old), None) => add_edit(edits, &row_until(key, old), false, found.index),
        (Some(old), Some(expiry)) if expiry.0 == old.0 => Ok(()),
        (Some(_), Some(expiry)) => add_edit(edits, &row_until(key, expiry), true, found.index),
    }
}

/// Adds the edit of a row to those that are planned, as `plan_edit` does. Sort keys that come in
/// their order are not looked for.
pub(crate) fn add_edit(
    edits: &mut SortedRows<Edit<Row>>,
    row: &Row,
    comes: bool,
    found: Result<usize, usize>,
) -> Result<(), Memory>
    ensures { OnOk result (edits.new.rows ≡ set_row (edit_sort_key row_sort_key) (edit row.now comes found) edits.old.rows) }
{
    edits.reserve(1)?;
    let last = Edit {
        row: *row,
        comes,
        found,
    };
    if !edits.push_last(last) {
        edits.put(Edit {
            row: *row,
            comes,
            found,
        });
    }
    Ok(())
}

/// Does nothing: its contract says that no expiry is after that of what lasts for ever.
fn tell_most(expiry: End)
    ensures { expiry ≤ for_ever }
{
    let _seconds = expiry.0;
}

/// The lesser of two expiries, where there is a second one.
fn lesser(expiry: End, until: Option<End>) -> Option<End>
    ensures { result ≡ option_map (min expiry) until }
{
    until.map(|until| End(expiry.0.min(until.0)))
}
