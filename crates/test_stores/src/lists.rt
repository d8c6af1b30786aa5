//! What a desk lists behind so many of the commands.

use crate::bulb::{ADDRESS, CLASS, DIGEST, FILE, MAC, NAME, RESOLVER, SERVER, URL};
use crate::commands::{DEEDS, SECOND};
use mud_base::{Addr, End, Moment};
use mud_desk::Desk;
use mud_world::Keeper;
use table_model::{Class, ClassRow, NameRow, Thing};
use usage_tables::{Approval, CachedFile, Held};

/// Whether these are the leases of the bulb, from the second command on.
fn are_leases(leases: &[(Addr, End)], count: usize) -> bool {
    if count < 2 {
        return leases.is_empty();
    }
    leases == [(ADDRESS, End(87400))].as_slice()
}

/// Whether it is the bulb, which isn't held, with its leases.
fn is_bulb(thing: &Thing, count: usize) -> bool {
    thing.mac.0 == MAC.0
        && thing.url.text() == URL
        && !thing.held
        && thing.pending.is_none()
        && are_leases(thing.leases.as_slice(), count)
}

/// Whether the bulb is there, from the first command up to the last one.
fn are_things(things: &[Thing], count: usize) -> bool {
    match things.first() {
        None => count == 0 || count == DEEDS.len(),
        Some(thing) => 0 < count
            && count < DEEDS.len()
            && things.len() == 1
            && is_bulb(thing, count),
    }
}

/// Whether it is the file, fetched at the moment of the commands.
fn is_file(held: &Held) -> bool {
    held.octets() == FILE && held.digest() == DIGEST && held.fetched().seconds() == SECOND
}

/// Whether it is the longer file.
fn is_longer(held: &Held) -> bool {
    held.octets().len() == FILE.len() + 9000 && held.fetched().seconds() == SECOND
}

/// Whether the file waits, from the third command on, is approved, from the fourth one on, and the
/// longer one waits beside it, from the seventh one on.
fn is_held(file: &CachedFile, count: usize) -> bool {
    let is_waiting = match (&file.approved, &file.candidate) {
        (None, Some(held)) => count == 3 && is_file(held),
        (Some((held, Approval::Waived)), None) => 3 < count && count < 7 && is_file(held),
        (Some((held, Approval::Waived)), Some(longer)) => {
            7 <= count && is_file(held) && is_longer(longer)
        }
        _ => false,
    };
    is_waiting && file.url.text() == URL
}

/// Whether the file is held, from the third command on.
fn are_files(files: &[CachedFile], count: usize) -> bool {
    match files.first() {
        None => count < 3,
        Some(file) => files.len() == 1 && is_held(file, count),
    }
}

/// Whether it is the class with the resolver.
fn is_class(row: &ClassRow) -> bool {
    let is_class = match &row.class {
        Class::Uri(uri) => uri.octets() == CLASS,
        Class::Mine(_) => false,
    };
    is_class && row.addrs.as_slice() == [RESOLVER].as_slice()
}

/// Whether the class is bound, from the fifth command on.
fn are_classes(classes: &[ClassRow], count: usize) -> bool {
    match classes.first() {
        None => count < 5,
        Some(row) => 5 <= count && classes.len() == 1 && is_class(row),
    }
}

/// Whether the name is observed, from the sixth command on.
fn are_names(names: &[NameRow], count: usize) -> bool {
    match names.first() {
        None => count < 6,
        Some(row) => {
            6 <= count
                && names.len() == 1
                && row.name.octets() == NAME
                && row.addrs.as_slice() == [(SERVER, End(1060))].as_slice()
        }
    }
}

/// Whether it is the moment of the last change, from the first command on.
fn is_stamp(stamp: Option<Moment>, count: usize) -> bool {
    match stamp {
        None => count == 0,
        Some(moment) => 0 < count && moment.seconds() == SECOND,
    }
}

/// Whether a desk lists what so many of the commands make.
fn lists<K: Keeper>(desk: &Desk<K>, count: usize) -> bool {
    are_things(desk.things(), count)
        && are_files(desk.files(), count)
        && are_classes(desk.classes(), count)
        && desk.locals().is_empty()
        && are_names(desk.names(), count)
        && is_stamp(desk.stamp(), count)
}

/// How many of the commands make what a desk lists; None where no number of them does.
pub(crate) fn count_in<K: Keeper>(desk: &Desk<K>) -> Option<usize> {
    for count in 0..=DEEDS.len() {
        if lists(desk, count) {
            return Some(count);
        }
    }
    None
}
