//! What a command answers.
ghost use Rattle.std.specs.Prelude.{◌≡◌};

use item_codec::Word;
use mud_base::End;
use mud_url::MudUrl;
use table_model::{BindFault, ThingFault};
use usage_tables::CacheFault;

/// What a command did.
#[derive(Clone, Copy)]
pub struct Outcome {
    pub word: Word,
    /// The expiry that is kept of a lease or of an address of a name.
    pub until: Option<End>,
    /// The URL that a command on files is about.
    pub url: Option<MudUrl>,
}

/// Why a command is refused, by the book that refuses it.
#[derive(Drop)]
pub enum Refusal {
    Things(ThingFault),
    Files(CacheFault),
    Binds(BindFault),
}

/// What a command answers. After any reply but `Done` all is as it was.
#[derive(Drop)]
pub enum Reply {
    /// It was carried out, and what it changes is kept.
    Done(Outcome),
    /// It is refused, and not for want of memory.
    Refused(Refusal),
    /// What it changes could not be kept.
    Keeper,
    /// Memory was wanted and there was none.
    Memory,
}

impl From<ThingFault> for Refusal {
    ghost use Rattle.std.specs.Prelude.{◌≡◌};
    ghost use Rattle.desk_model.specs.declared.reply.Refusal.TheVariants.{Things};

    ghost from_gives = { λ fault refusal. refusal ≡ Things fault };

    fn from(fault: ThingFault) -> Refusal {
        Refusal::Things(fault)
    }
}

impl From<CacheFault> for Refusal {
    ghost use Rattle.std.specs.Prelude.{◌≡◌};
    ghost use Rattle.desk_model.specs.declared.reply.Refusal.TheVariants.{Files};

    ghost from_gives = { λ fault refusal. refusal ≡ Files fault };

    fn from(fault: CacheFault) -> Refusal {
        Refusal::Files(fault)
    }
}

impl From<BindFault> for Refusal {
    ghost use Rattle.std.specs.Prelude.{◌≡◌};
    ghost use Rattle.desk_model.specs.declared.reply.Refusal.TheVariants.{Binds};

    ghost from_gives = { λ fault refusal. refusal ≡ Binds fault };

    fn from(fault: BindFault) -> Refusal {
        Refusal::Binds(fault)
    }
}

impl Refusal {
    ghost use Rattle.desk_model.specs.Refusals.{number_of_refusal, name_of_refusal, is_want_of_memory, reply_of};

    /// Its number in its book, from 1 on. Want of memory has none, and gives 0.
    #[tactic(auto, unfolding(crate::specs::Refusals::number_of_refusal))]
    pub fn number(&self) -> u8
        ensures { result ≡ number_of_refusal self.now }
    {
        match self {
            Refusal::Things(fault) => fault.number(),
            Refusal::Files(fault) => fault.number(),
            Refusal::Binds(fault) => fault.number(),
        }
    }

    /// Its name, as it is written.
    #[tactic(auto, unfolding(crate::specs::Refusals::name_of_refusal))]
    pub fn name(&self) -> &'static str
        ensures { result.now ≡ name_of_refusal self.now }
    {
        match self {
            Refusal::Things(fault) => fault.name(),
            Refusal::Files(fault) => fault.name(),
            Refusal::Binds(fault) => fault.name(),
        }
    }

    /// Whether memory was wanted: that says nothing of the command.
    #[tactic(auto, unfolding(crate::specs::Refusals::is_want_of_memory))]
    pub fn is_want_of_memory(&self) -> bool
        ensures { result ≡ is_want_of_memory self.now }
    {
        match self {
            Refusal::Things(fault) => matches!(fault, ThingFault::Memory),
            Refusal::Files(fault) => matches!(fault, CacheFault::Memory),
            Refusal::Binds(fault) => matches!(fault, BindFault::Memory),
        }
    }

    /// The reply to a command that is refused so: want of memory is no refusal of the command.
    #[tactic(auto, unfolding(crate::specs::Refusals::reply_of))]
    pub fn into_reply(self) -> Reply
        ensures { result ≡ reply_of self }
    {
        if self.is_want_of_memory() {
            Reply::Memory
        } else {
            Reply::Refused(self)
        }
    }
}
