//! The slots of URLs in the table of policies, in the order of the URLs' texts, read from behind.
ghost use Rattle.std.specs.Prelude.{◌≡◌, ◌≢◌, ℕ, ◌<◌, ◌≤◌, true, Some, bytes_eq, false, length, reverse, slice_index, option_copied, option_map, IfSome, IfNone};
ghost use Rattle.base_rows.specs.Sortable.{sort_key_cmp};
ghost use Rattle.acl_model.specs.Policies.{UrlPolicy};
ghost use Rattle.acl_rows.specs.Rows.{held_by};
ghost use Rattle.acl_rows.specs.View.{holder_from};
ghost use Rattle.acl_compile.specs.Compiled.{UrlsApart};
ghost use Rattle.acl_compile.specs.Plans.{slot_set};
ghost use Rattle.mud_base.specs.Numbers.{IsOctets};
ghost use Rattle.acl_compile.specs.UrlSlots.{lead, guess_number, guess_at, AreGuessed, AreSlotsOf, IsMissed, url_slots_without, url_slots_with};

use acl_changes::Held;
use acl_rows::Owner;
use base_rows::{KeyOf, Sortable, SortedRows};
use mud_url::MudUrl;
use std::cmp::Ordering;
use std::marker::Model;

/// How two texts stand to one another when they are read from behind: the last octet in which they
/// differ decides, and else the shorter one comes first. URLs begin alike and differ towards their
/// ends, so this looks at few octets.
fn order_from_behind(own: &[u8], other: &[u8]) -> Ordering
    ensures { result ≡ sort_key_cmp (reverse own.now) (reverse other.now) }
{
    let both = own.len().min(other.len());
    let end = &own[own.len() - both..];
    let other_end = &other[other.len() - both..];
    let mut left = both;
    while left > 0 {
        left -= 1;
        if end[left] != other_end[left] {
            return end[left].cmp(&other_end[left]);
        }
    }
    own.len().cmp(&other.len())
}

/// The octet that stands as many octets before the last one, or 0 where the text is shorter.
fn octet_behind(text: &[u8], before: usize) -> u8
    ensures { result ≡ slice_index (reverse text.now) before }
{
    if before < text.len() {
        text[text.len() - 1 - before]
    } else {
        0
    }
}

/// The number that the last eight octets spell, the last one most significant. Octets that a
/// shorter text lacks count as zeros.
fn end_number(text: &[u8]) -> u64
    ensures { result ≡ lead 8 0 (reverse text.now) }
{
    let len = text.len();
    if len < 8 {
        return u64::from_be_bytes([
            octet_behind(text, 0),
            octet_behind(text, 1),
            octet_behind(text, 2),
            octet_behind(text, 3),
            octet_behind(text, 4),
            octet_behind(text, 5),
            octet_behind(text, 6),
            octet_behind(text, 7),
        ]);
    }
    u64::from_le_bytes([
        text[len - 8],
        text[len - 7],
        text[len - 6],
        text[len - 5],
        text[len - 4],
        text[len - 3],
        text[len - 2],
        text[len - 1],
    ])
}

/// Every octet is one.
fn are_octets(text: &[u8])
    ensures { IsOctets text.now }
{}

/// How two texts stand to one another when they are read from behind, of which the numbers of the
/// last eight octets are known. These mostly decide, and the same text is told by as many octets
/// at once.
fn order_by_ends(own: &[u8], own_end: u64, other: &[u8], other_end: u64) -> Ordering
    requires own { own_end ≡ lead 8 0 (reverse own.now) }
    requires other { other_end ≡ lead 8 0 (reverse other.now) }
    ensures { result ≡ sort_key_cmp (reverse own.now) (reverse other.now) }
{
    are_octets(own);
    are_octets(other);
    if own_end != other_end {
        return own_end.cmp(&other_end);
    }
    if own == other {
        return Ordering::Equal;
    }
    order_from_behind(own, other)
}

/// A URL for which a policy is held, and the slot in which it is. Contracts see both.
#[derive(Drop)]
pub(crate) struct UrlSlot {
    /// The URL, by whose text, read from behind, slots are ordered.
    url: MudUrl,
    /// The slot in the table of policies.
    slot_number: u16,
    /// The number of the last eight octets of the URL's text.
    end: u64,
}

impl Model for UrlSlot {
    ghost use Rattle.std.specs.Prelude.{◌≡◌, reverse};
    ghost use Rattle.acl_compile.specs.UrlSlots.{lead, UrlAndSlot};

    ghost Value = { UrlAndSlot };

    ghost view = { λ p. record { url = p.url; slot_number = p.slot_number } };

    ghost invariant = { λ p. p.end ≡ lead 8 0 (reverse p.url) };
}

impl UrlSlot {
    /// This URL has this slot.
    pub(crate) fn new(url: MudUrl, slot_number: u16) -> UrlSlot
        ensures url { result.url ≡ url }
        ensures slot_number { result.slot_number ≡ slot_number }
    {
        let end = end_number(url.text());
        UrlSlot {
            url,
            slot_number,
            end,
        }
    }

    /// The slot in the table of policies.
    pub(crate) fn slot_number(&self) -> u16
        ensures { result ≡ self.now.slot_number }
    {
        self.slot_number
    }
}

impl Sortable for UrlSlot {
    ghost use Rattle.acl_compile.specs.UrlSlots.{url_of};

    ghost sort_key = { url_of };

    #[tactic(auto, unfolding(crate::specs::UrlSlots::url_of))]
    fn order(&self, other: &UrlSlot) -> Ordering {
        order_by_ends(self.url.text(), self.end, other.url.text(), other.end)
    }
}

/// The slot of a URL is found by its text, read from behind, with the number of its last eight
/// octets.
#[derive(Drop)]
struct UrlKey<'a> {
    text: &'a [u8],
    end: u64,
}

impl<'a> Model for UrlKey<'a> {
    ghost use Rattle.std.specs.Prelude.{◌≡◌, ℕ, List, reverse};
    ghost use Rattle.acl_compile.specs.UrlSlots.{lead};

    ghost Value = { List ℕ };

    ghost view = { λ k. k.text.now };

    ghost invariant = { λ k. k.end ≡ lead 8 0 (reverse k.text.now) };
}

impl<'a> UrlKey<'a> {
    /// The key of a URL.
    fn new(url: &'a MudUrl) -> UrlKey<'a>
        ensures { result ≡ url.now }
    {
        let text = url.text();
        UrlKey {
            text,
            end: end_number(text),
        }
    }
}

impl KeyOf<UrlSlot> for UrlKey<'_> {
    ghost use Rattle.acl_compile.specs.UrlSlots.{url_of};
    ghost use Rattle.std.specs.Prelude.{reverse};

    ghost sort_key = { λ url. reverse url };

    #[tactic(auto, unfolding(crate::specs::UrlSlots::url_of))]
    fn order_to(&self, url_slot: &UrlSlot) -> Ordering {
        order_by_ends(self.text, self.end, url_slot.url.text(), url_slot.end)
    }
}

/// The policy that is held in a slot of the table.
#[tactic(auto, unfolding(acl_rows::specs::Rows::held_by, acl_rows::specs::Rows::slot_policy))]
fn held_in(slots: &[Option<Held>], index: usize) -> Option<&Held>
    ensures { option_copied result ≡ held_by slots.now (Owner.Url index) }
{
    match slots.get(index) {
        Some(Some(held)) => Some(held),
        _ => None,
    }
}

/// The policy that is held for a URL, and its slot, searched among all others: only where the slot
/// that is guessed isn't its.
fn find_held<'a>(
    slots: &'a [Option<Held>],
    url_slots: &SortedRows<UrlSlot>,
    guesses: &SlotGuesses,
    url: &MudUrl,
) -> Option<(u16, &'a Held)>
    requires url_slots { AreSlotsOf slots.now url_slots.now.rows }
    requires missed { IsMissed slots.now guesses.now url.now }
    ensures { option_map (λ h. (Owner.Url h.0, h.1.now)) result ≡ holder_from url.now 0 slots.now }
{
    let _missed = guesses;
    let found = url_slots.get(&UrlKey::new(url))?;
    let slot_number = found.slot_number();
    let held = held_in(slots, usize::from(slot_number))?;
    Some((slot_number, held))
}

/// How many guesses there are: eight times as many as slots, and a prime number, so that few URLs
/// have one in common.
const GUESS_COUNT: usize = 1021;

/// In which slot the policy of a URL probably is held, by the last eight octets of its text. What
/// is guessed is looked at before it is believed. Contracts see the list of the guesses.
#[derive(Drop)]
pub(crate) struct SlotGuesses {
    url_slots: [u16; GUESS_COUNT],
}

impl Model for SlotGuesses {
    ghost use Rattle.std.specs.Prelude.{ℕ, List};

    ghost Value = { List ℕ };

    ghost view = { λ g. g.url_slots };
}

impl SlotGuesses {
    /// The first slot is guessed for every URL.
    pub(crate) fn new() -> SlotGuesses {
        SlotGuesses {
            url_slots: [0; GUESS_COUNT],
        }
    }

    /// The slot that is guessed for a URL.
    #[tactic(auto, unfolding(crate::specs::UrlSlots::guess_at))]
    fn slot_number(&self, url: &MudUrl) -> u16
        ensures { result ≡ guess_at self.now url.now }
    {
        self.url_slots[guess_of(url)]
    }

    /// From now on this slot is guessed for the URL of a policy.
    #[tactic(auto, unfolding(crate::specs::UrlSlots::guess_at))]
    fn keep(&mut self, held: &Held, index: usize)
        requires { index < 65536 }
        ensures own { guess_at self.new held.now.url ≡ index }
        ensures others { (n : ℕ) → n ≢ guess_number held.now.url → slice_index self.new n ≡ slice_index self.old n }
    {
        self.url_slots[guess_of(held.url())] = index as u16;
    }

    /// Guesses the slots of these policies for their URLs. Where several URLs have one guess, it is
    /// that of the last one.
    pub(crate) fn write(&mut self, slots: &[Option<Held>])
        requires { length slots.now ≤ 128 }
        ensures { AreGuessed slots.now self.new }
    {
        for (index, slot) in slots.iter().enumerate() {
            if let Some(held) = slot {
                self.keep(held, index);
            }
        }
    }
}

/// Which of the guesses is that of a URL.
#[tactic(auto, unfolding(crate::specs::UrlSlots::guess_number))]
fn guess_of(url: &MudUrl) -> usize
    ensures value { result ≡ guess_number url.now }
    ensures within { result < 1021 }
{
    (end_number(url.text()) % GUESS_COUNT as u64) as usize
}

/// The policy that is held in a slot of the table, where it is that of this URL.
fn held_for_url<'a>(slots: &'a [Option<Held>], slot_number: u16, url: &MudUrl) -> Option<&'a Held>
    ensures held { IfSome result (λ held. held_by slots.now (Owner.Url slot_number) ≡ Some held.now) }
    ensures own { IfSome result (λ held. bytes_eq held.now.url url.now ≡ true) }
    ensures missed { IfNone result ((held : UrlPolicy) → held_by slots.now (Owner.Url slot_number) ≡ Some held → bytes_eq held.url url.now ≡ false) }
{
    let held = held_in(slots, usize::from(slot_number))?;
    if held.url().text() == url.text() {
        return Some(held);
    }
    None
}

/// The policy that is held for a URL, and its slot, which is mostly the one that is guessed.
#[inline(always)]
pub(crate) fn find_guessed<'a>(
    slots: &'a [Option<Held>],
    url_slots: &SortedRows<UrlSlot>,
    guesses: &SlotGuesses,
    url: &MudUrl,
) -> Option<(u16, &'a Held)>
    requires url_slots { AreSlotsOf slots.now url_slots.now.rows }
    requires apart { UrlsApart slots.now }
    requires guessed { AreGuessed slots.now guesses.now }
    ensures { option_map (λ h. (Owner.Url h.0, h.1.now)) result ≡ holder_from url.now 0 slots.now }
{
    let slot_number = guesses.slot_number(url);
    match held_for_url(slots, slot_number, url) {
        Some(held) => Some((slot_number, held)),
        None => find_held(slots, url_slots, guesses, url),
    }
}

/// Takes the slot of this policy's URL away.
#[tactic(auto, unfolding(crate::specs::UrlSlots::url_slots_without))]
fn take_url_slot(url_slots: &mut SortedRows<UrlSlot>, gone: Option<&Held>)
    ensures rows { url_slots.new.rows ≡ url_slots_without (option_copied gone.entry) url_slots.old.rows }
    ensures room { url_slots.old.room ≤ url_slots.new.room }
{
    if let Some(held) = gone {
        drop(url_slots.remove(&UrlKey::new(held.url())));
    }
}

/// Puts the slot of this policy's URL in. It takes no memory.
#[tactic(auto, unfolding(crate::specs::UrlSlots::url_slots_with))]
fn put_url_slot(url_slots: &mut SortedRows<UrlSlot>, slot_number: u16, come: &Option<Held>)
    requires { 1 ≤ url_slots.old.room }
    ensures { url_slots.new.rows ≡ url_slots_with slot_number come.now url_slots.old.rows }
{
    if let Some(held) = come {
        url_slots.put(UrlSlot::new(*held.url(), slot_number));
    }
}

/// Keeps the slots up where this is to stand in a slot of the table, or in one behind the last.
/// It takes no memory.
pub(crate) fn set_url_slot(
    url_slots: &mut SortedRows<UrlSlot>,
    slots: &[Option<Held>],
    index: usize,
    held: &Option<Held>,
)
    requires room { 1 ≤ url_slots.old.room }
    requires within { index ≤ length slots.now }
    requires few { length (slot_set (index, held.now) slots.now) ≤ 128 }
    requires apart { UrlsApart slots.now }
    requires apart_after { UrlsApart (slot_set (index, held.now) slots.now) }
    requires before { AreSlotsOf slots.now url_slots.old.rows }
    ensures { AreSlotsOf (slot_set (index, held.now) slots.now) url_slots.new.rows }
{
    let _ascending = url_slots.rows();
    take_url_slot(url_slots, held_in(slots, index));
    put_url_slot(url_slots, index as u16, held);
}
