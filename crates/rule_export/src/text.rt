//! The text of an item in the exchange form of access lists.
ghost use Rattle.std.specs.Prelude.{◌≡◌, ◌++◌, OnOk, IfOk, codes, decimal};
ghost use Rattle.rule_export.specs.Text as spec;

use crate::append_entry;
use crate::item::{Resolved, RuleNumber};
use crate::ruling::entry_of;
use acl_model::DefaultRule;
use acl_rows::RuleView;
use mud_base::{Bytes, Family, Memory};
use std::alloc::Global;
use text_values::append_decimal;

/// Adds the word of a rule: `e` and the entry's number, `dns` or `ntp`.
#[tactic(auto, unfolding(crate::specs::Text::rule_text))]
fn append_rule(line: &mut Bytes, rule: RuleNumber) -> Result<(), Memory>
    ensures { OnOk result (line.new ≡ line.old ++ spec.rule_text rule) }
{
    match rule {
        RuleNumber::File(number) => {
            line.append(b"e")?;
            append_decimal(line, u64::from(number))
        }
        RuleNumber::Default(DefaultRule::Dns) => line.append(b"dns"),
        RuleNumber::Default(DefaultRule::Ntp) => line.append(b"ntp"),
    }
}

/// The name of an item: the word of its rule, and its number among the items of its entry.
#[tactic(auto)]
fn item_name(alloc: Global, item: &Resolved) -> Result<Bytes, Memory>
    ensures { IfOk result (λ name. name ≡ spec.rule_text item.now.rule ++ codes "-" ++ decimal item.now.number) }
{
    let mut name = Bytes::empty(alloc);
    append_rule(&mut name, item.rule)?;
    name.append(b"-")?;
    append_decimal(&mut name, item.number)?;
    Ok(name)
}

/// Adds the text of an item: nothing where its rule names no entry of the view.
#[tactic(auto, unfolding(crate::specs::Text::resolved_text, crate::specs::Text::item_text))]
pub fn append_resolved(
    alloc: Global,
    line: &mut Bytes,
    view: &RuleView<'_>,
    family: Family,
    item: &Resolved,
) -> Result<(), Memory>
    ensures { OnOk result (line.new ≡ line.old ++ spec.resolved_text view.now family item.now) }
{
    let Some(entry) = entry_of(view, item.rule) else {
        return Ok(());
    };
    let name = item_name(alloc, item)?;
    append_entry(
        alloc,
        line,
        family,
        view.side(),
        &item.network,
        name.octets(),
        entry,
    )
}

/// The text of an item of a list of the view for IPv4 or IPv6: an entry of an access list in the
/// exchange form of RFC 8519, as compact JSON whose members are in the order of the octets of their
/// names. It has no octets where the item's rule names no entry of the view.
pub fn resolved_text(
    alloc: Global,
    view: RuleView<'_>,
    family: Family,
    item: &Resolved,
) -> Result<Bytes, Memory>
    ensures { IfOk result (λ text. text ≡ spec.resolved_text view.entry family item.now) }
{
    let mut line = Bytes::empty(alloc);
    append_resolved(alloc, &mut line, &view, family, item)?;
    Ok(line)
}
