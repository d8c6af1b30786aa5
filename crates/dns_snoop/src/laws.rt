//! A law of the texts in which names are kept. It is the contract of a function that does nothing.
ghost use Rattle.std.specs.Prelude.{◌≡◌, List};
ghost use Rattle.dns_snoop.specs.Names.{Label, labels_of, text_of};

/// Two names are kept as one text exactly where they have the same labels, letters of either case
/// being the same: names are compared label by label (RFC 1035, section 2.3.3).
pub fn texts_compare_labels()
    ensures same { (a b : List Label) → text_of a ≡ text_of b → labels_of a ≡ labels_of b }
    ensures apart { (a b : List Label) → labels_of a ≡ labels_of b → text_of a ≡ text_of b }
{}
