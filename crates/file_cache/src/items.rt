//! Writing the items in which files are kept.
ghost use Rattle.std.specs.Prelude.{◌≡◌, ◌≤◌, ◌++◌, length, IfOk, OnOk};
ghost use Rattle.item_codec.specs.Records.{optional};
ghost use Rattle.usage_tables.specs.Held.{held_file};
ghost use Rattle.usage_tables.specs.FileItems as spec;
ghost use Rattle.item_codec.specs.Spelling.{version};

use item_codec::FieldWriter;
use item_codec::kinds::FILE_KIND;
use mud_base::{Bytes, Memory, Moment};
use mud_url::MudUrl;
use mud_world::Item;
use std::alloc::Global;
use std::marker::Model;
use usage_tables::{Approval, CachedFile, Held};

/// A file as it is to be written: the octets of a held one, lent, and when they were fetched.
/// Contracts see it as a held file.
#[derive(Drop)]
pub struct Lent<'a> {
    octets: &'a [u8],
    fetched: Moment,
}

impl<'a> Model for Lent<'a> {
    ghost use Rattle.std.specs.Prelude.{◌≤◌, length};
    ghost use Rattle.usage_tables.specs.Held.{HeldFile, held_file};

    ghost Value = { HeldFile };

    ghost view = { λ l. held_file l.octets.now l.fetched };

    ghost invariant = { λ l. length l.octets.now ≤ 262144 };
}

impl<'a> Lent<'a> {
    /// Octets of a usage file, and when they were fetched.
    pub fn new(octets: &'a [u8], fetched: Moment) -> Lent<'a>
        requires { length octets.now ≤ 262144 }
        ensures { result ≡ held_file octets.now fetched }
    {
        Lent { octets, fetched }
    }

    /// A held file, fetched at some moment.
    pub(crate) fn fetched_at(held: &'a Held, fetched: Moment) -> Lent<'a>
        ensures { result ≡ held_file held.now.octets fetched }
    {
        Lent::new(held.octets(), fetched)
    }

    /// A held file.
    pub fn of(held: &'a Held) -> Lent<'a>
        ensures { result ≡ held.now }
    {
        Lent::fetched_at(held, held.fetched())
    }
}

/// The approved file of a row.
pub(crate) fn approved_of(row: &CachedFile) -> Option<(Lent<'_>, Approval)>
    ensures { result ≡ row.now.approved }
{
    match &row.approved {
        Some((held, approval)) => Some((Lent::of(held), *approval)),
        None => None,
    }
}

/// The candidate of a row.
pub(crate) fn candidate_of(row: &CachedFile) -> Option<Lent<'_>>
    ensures { result ≡ row.now.candidate }
{
    match &row.candidate {
        Some(held) => Some(Lent::of(held)),
        None => None,
    }
}

/// The number that says an approval.
#[tactic(auto, unfolding(usage_tables::specs::FileItems::approval_number))]
fn approval_number(approval: Approval) -> u64
    ensures value { result ≡ spec.approval_number approval }
    ensures small { result ≤ 2 }
{
    match approval {
        Approval::Verified => 1,
        Approval::Waived => 2,
    }
}

/// Writes a candidate, or that there is none. Without memory for all of it a part may have been
/// written, here and below.
#[tactic(auto, unfolding(usage_tables::specs::FileItems::held_fields, item_codec::specs::Records::optional))]
fn write_candidate(writer: &mut FieldWriter, candidate: Option<Lent<'_>>) -> Result<(), Memory>
    ensures { OnOk result (writer.new ≡ writer.old ++ optional spec.held_fields candidate.entry) }
{
    match candidate {
        Some(held) => {
            writer.number(1, 1)?;
            writer.number(8, held.fetched.seconds())?;
            writer.string(held.octets)
        }
        None => writer.number(1, 0),
    }
}

/// Writes an approved file and its approval, or that there is none.
#[tactic(auto, unfolding(usage_tables::specs::FileItems::approved_fields, item_codec::specs::Records::optional))]
fn write_approved(
    writer: &mut FieldWriter,
    approved: Option<(Lent<'_>, Approval)>,
) -> Result<(), Memory>
    ensures { OnOk result (writer.new ≡ writer.old ++ optional spec.approved_fields approved.entry) }
{
    match approved {
        Some((held, approval)) => {
            writer.number(1, 1)?;
            writer.number(8, held.fetched.seconds())?;
            writer.number(1, approval_number(approval))?;
            writer.string(held.octets)
        }
        None => writer.number(1, 0),
    }
}

/// Writes the version and both files.
#[tactic(auto, unfolding(item_codec::specs::Spelling::version, item_codec::specs::Spelling::version_of))]
fn body_of(
    alloc: Global,
    approved: Option<(Lent<'_>, Approval)>,
    candidate: Option<Lent<'_>>,
) -> Result<Bytes, Memory>
    ensures { IfOk result (λ body. body ≡ version ++ (optional spec.approved_fields approved.entry ++ optional spec.held_fields candidate.entry)) }
{
    let mut writer = FieldWriter::new(alloc);
    writer.number(1, 1)?;
    write_approved(&mut writer, approved)?;
    write_candidate(&mut writer, candidate)?;
    Ok(writer.into_bytes())
}

/// The item in which these files of a URL are kept.
#[tactic(auto, unfolding(usage_tables::specs::FileItems::file_item, usage_tables::specs::FileItems::file_row))]
pub(crate) fn item_of(
    alloc: Global,
    url: &MudUrl,
    approved: Option<(Lent<'_>, Approval)>,
    candidate: Option<Lent<'_>>,
) -> Result<Item, Memory>
    ensures { IfOk result (λ item. item ≡ spec.file_item (spec.file_row url.now approved.entry candidate.entry)) }
{
    let key = Bytes::new(alloc, url.text())?;
    let body = body_of(alloc, approved, candidate)?;
    Ok(Item {
        kind: FILE_KIND,
        key,
        body,
    })
}
