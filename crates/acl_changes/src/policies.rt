//! Policies that are held, with what a ruling wants of them at hand.
ghost use Rattle.std.specs.Prelude.{◌≡◌, ◌≤◌, [], IfOk, length};
ghost use Rattle.acl_model.specs.Defaults.{default_policy, defaults_of};
ghost use Rattle.acl_model.specs.Policies.{url_policy};
ghost use Rattle.acl_rows.specs.View.{wide_from, IsPartOf};
ghost use Rattle.mud_url.specs.Url.{host_of};
ghost use Rattle.acl_changes.specs.Policies.{HasCounts, IsIndexOf};

use crate::KeyIndex;
use acl_buckets::RowBuckets;
use acl_model::{DefaultRule, Entry, Policy, default_entry};
use acl_rows::{Owner, RulePart};
use mud_base::{Direction, Listed, Memory};
use mud_url::MudUrl;
use std::alloc::Global;
use std::marker::Model;

/// A policy with the numbers of its wide entries: those with no member selector.
pub struct CompiledPolicy {
    policy: Policy,
    wide_outgoing: Listed<u16>,
    wide_incoming: Listed<u16>,
}

// It is written out, so that what lets one go doesn't prove again how each part is dropped.
impl Drop for CompiledPolicy {
    fn drop(self) {
        let CompiledPolicy {
            policy: _,
            wide_outgoing: _,
            wide_incoming: _,
        } = self;
    }
}

impl Model for CompiledPolicy {
    ghost use Rattle.acl_model.specs.declared.entry.Policy.{Policy};
    ghost use Rattle.acl_changes.specs.Policies.{HasWide};

    ghost Value = { Policy };

    ghost view = { λ p. p.policy };

    ghost invariant = { λ p. HasWide p.policy p.wide_outgoing p.wide_incoming };
}

/// A policy that is held, with the URL of its file, and its index by keys.
pub struct Held {
    url: MudUrl,
    policy: CompiledPolicy,
    keys: KeyIndex,
}

// It is written out, so that what lets one go doesn't prove again how each part is dropped.
impl Drop for Held {
    fn drop(self) {
        let Held {
            url: _,
            policy: _,
            keys: _,
        } = self;
    }
}

impl Model for Held {
    ghost use Rattle.acl_model.specs.Policies.{UrlPolicy, url_policy};
    ghost use Rattle.acl_changes.specs.Policies.{IsIndexOf};

    ghost Value = { UrlPolicy };

    ghost view = { λ h. url_policy h.url h.policy };

    ghost invariant = { λ h. IsIndexOf h.url h.policy h.keys };
}

/// The policy of the default entries, which are in no file, and its index by keys.
pub struct HeldDefaults {
    policy: CompiledPolicy,
    keys: KeyIndex,
}

// It is written out, so that what lets one go doesn't prove again how each part is dropped.
impl Drop for HeldDefaults {
    fn drop(self) {
        let HeldDefaults { policy: _, keys: _ } = self;
    }
}

impl Model for HeldDefaults {
    ghost use Rattle.std.specs.Prelude.{[]};
    ghost use Rattle.acl_model.specs.declared.entry.Policy.{Policy};
    ghost use Rattle.acl_changes.specs.Policies.{IsIndexOf};

    ghost Value = { Policy };

    ghost view = { λ d. d.policy };

    ghost invariant = { λ d. IsIndexOf [] d.policy d.keys };
}

/// The numbers of the entries with no member selector, in order.
fn wide_numbers(alloc: Global, entries: &[Entry]) -> Result<Listed<u16>, Memory>
    requires { length entries.now ≤ 65535 }
    ensures { IfOk result (λ numbers. numbers ≡ wide_from 1 entries.now) }
{
    let mut numbers = Listed::new(alloc);
    let mut n: u16 = 0;
    for entry in entries {
        n += 1;
        if !entry.is_membered() {
            numbers.push(n)?;
        }
    }
    Ok(numbers)
}

/// The default entries of one side.
fn default_entries(alloc: Global, side: Direction) -> Result<Listed<Entry>, Memory>
    ensures { IfOk result (λ entries. entries ≡ defaults_of side) }
{
    let mut entries = Listed::new(alloc);
    entries.push(default_entry(alloc, DefaultRule::Dns, side)?)?;
    entries.push(default_entry(alloc, DefaultRule::Ntp, side)?)?;
    Ok(entries)
}

impl CompiledPolicy {
    /// The policy, each of whose lists has at most 65,535 entries.
    pub fn new(alloc: Global, policy: Policy) -> Result<CompiledPolicy, Memory>
        requires { HasCounts policy }
        ensures { IfOk result (λ made. made ≡ policy) }
    {
        let wide_outgoing = wide_numbers(alloc, policy.outgoing.as_slice())?;
        let wide_incoming = wide_numbers(alloc, policy.incoming.as_slice())?;
        Ok(CompiledPolicy {
            policy,
            wide_outgoing,
            wide_incoming,
        })
    }

    /// The policy of the default entries.
    pub fn of_defaults(alloc: Global) -> Result<CompiledPolicy, Memory>
        ensures { IfOk result (λ made. made ≡ default_policy) }
    {
        let outgoing = default_entries(alloc, Direction::From)?;
        let incoming = default_entries(alloc, Direction::To)?;
        CompiledPolicy::new(alloc, Policy { outgoing, incoming })
    }

    /// The policy.
    pub fn policy(&self) -> &Policy
        ensures value { result.now ≡ self.now }
        ensures counts { HasCounts self.now }
    {
        &self.policy
    }

    /// The index of the policy by its keys, in the file of the URL with this text and host.
    fn index(&self, alloc: Global, url: &[u8], host: &[u8]) -> Result<KeyIndex, Memory>
        requires { host.now ≡ host_of url.now }
        ensures { IfOk result (λ keys. IsIndexOf url.now self.now keys) }
    {
        KeyIndex::new(alloc, url, host, &self.policy)
    }

    /// What a ruling reads of one side of it, over rows among which those of the owner stand. The
    /// rows of an address stand by themselves.
    pub fn part<'a>(&'a self, owner: Owner, side: Direction, rows: &'a RowBuckets) -> RulePart<'a>
        ensures { IsPartOf rows.now.rows side owner self.now result }
    {
        match side {
            Direction::From => rows.part(
                owner,
                side,
                self.policy.outgoing.as_slice(),
                self.wide_outgoing.as_slice(),
            ),
            Direction::To => rows.part(
                owner,
                side,
                self.policy.incoming.as_slice(),
                self.wide_incoming.as_slice(),
            ),
        }
    }
}

impl Held {
    /// The policy of this URL's file.
    pub fn new(alloc: Global, url: MudUrl, policy: CompiledPolicy) -> Result<Held, Memory>
        ensures { IfOk result (λ held. held ≡ url_policy url policy) }
    {
        let keys = policy.index(alloc, url.text(), url.host())?;
        Ok(Held { url, policy, keys })
    }

    /// The URL.
    pub fn url(&self) -> &MudUrl
        ensures { result.now ≡ self.now.url }
    {
        &self.url
    }

    /// The policy.
    pub fn policy(&self) -> &CompiledPolicy
        ensures { result.now ≡ self.now.policy }
    {
        &self.policy
    }

    /// The entries of the policy by their keys.
    pub(crate) fn keys(&self) -> &KeyIndex
        ensures { IsIndexOf self.now.url self.now.policy result.now }
    {
        &self.keys
    }
}

impl HeldDefaults {
    /// The policy of the default entries.
    #[tactic(auto, unfolding(mud_url::specs::Url::host_of, mud_url::specs::Url::authority, mud_url::specs::Url::host_part))]
    pub fn new(alloc: Global) -> Result<HeldDefaults, Memory>
        ensures { IfOk result (λ made. made ≡ default_policy) }
    {
        let policy = CompiledPolicy::of_defaults(alloc)?;
        let keys = policy.index(alloc, b"", b"")?;
        Ok(HeldDefaults { policy, keys })
    }

    /// The policy.
    pub fn policy(&self) -> &CompiledPolicy
        ensures { result.now ≡ self.now }
    {
        &self.policy
    }

    /// The default entries by their keys.
    pub(crate) fn keys(&self) -> &KeyIndex
        ensures { IsIndexOf [] self.now result.now }
    {
        &self.keys
    }
}
