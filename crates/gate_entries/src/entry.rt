ghost use Rattle.std.specs.Prelude.{◌≡◌, ◌<◌, ◌≤◌, ◌^◌, length, IfOk};
ghost use Rattle.std.specs.Option.{option_copied};
ghost use Rattle.gate_entries.specs.Command.{key_of};

use crate::caller::Caller;
use gate_base::{Bytes, CaaSeen, Method, Moment, NoMemory, Plain, Seen, Sixteen, Target, Targets};
use std::alloc::Global;

/// One entry of the journal.
#[derive(Debug, Drop)]
pub struct Entry {
    /// Its place in the history, counted from 1.
    pub number: u64,
    pub moment: Moment,
    /// The id of the caller who asked for it; nobody for settings.
    pub caller: Bytes,
    pub what: What,
}

/// What an entry says.
#[derive(Debug, Drop)]
pub enum What {
    /// The settings from here on.
    Settings {
        bytes: Bytes,
    },
    /// A certificate was ordered; the fields are those of the command.
    Order {
        key: Bytes,
        common: bool,
        days: u16,
        targets: Targets,
        request: Bytes,
    },
    /// A random value was drawn for a target of an order. It has to be seen where the method says, before the target is
    /// certified.
    Challenge {
        key: Bytes,
        order: u64,
        method: Method,
        target: Target,
        value: Sixteen,
        /// The thumbprint of the account's key (RFC 7638); empty but for `AcmeHttp`.
        thumb: Bytes,
    },
    /// A perspective tells what it saw of a challenge; the fields are those of the command.
    Observation {
        key: Bytes,
        challenge: u64,
        seen_at: u64,
        seen: Seen,
    },
    /// A perspective tells how its questions for CAA records were answered; the fields are those of the command.
    CaaAnswer {
        key: Bytes,
        order: u64,
        target: Target,
        seen_at: u64,
        answers: CaaSeen,
    },
    /// A body is sent to the signer for the order with that number; recorded before it is sent.
    Send {
        order: u64,
        body: Bytes,
    },
    /// The signer's signature of the body that the entry before sent.
    Signed {
        order: u64,
        signature: Bytes,
    },
    /// No certificate is signed for the key from here on; the fields are those of the command.
    Blocked {
        key: Bytes,
        spki: Bytes,
    },
}

impl What {
    /// The retry key, where the content stands under one.
    pub fn key(&self) -> Option<&Bytes>
        ensures { option_copied result ≡ key_of self.now }
    {
        match self {
            What::Order { key, .. }
            | What::Challenge { key, .. }
            | What::Observation { key, .. }
            | What::CaaAnswer { key, .. }
            | What::Blocked { key, .. } => Some(key),
            What::Settings { .. } | What::Send { .. } | What::Signed { .. } => None,
        }
    }
}

impl Entry {
    ghost use Rattle.std.specs.Prelude.{true};
    ghost use Rattle.gate_entries.specs.Challenge.{is_thumb_of};
    ghost use Rattle.gate_entries.specs.Spelling.{IsEntry};
    ghost use Rattle.gate_entries.specs.Target.{IsTarget};
    ghost use Rattle.gate_entries.specs.Command.{settings_entry, entry_with, IsCaller};

    /// The entry of settings, which are nobody's.
    pub fn settings(
        alloc: Global,
        number: u64,
        moment: Moment,
        bytes: &[u8],
    ) -> Result<Entry, NoMemory>
        requires { length bytes.now ≤ 1_048_576 }
        ensures entry { IfOk result (λ entry. entry ≡ settings_entry number moment bytes.now) }
        ensures spelled { IfOk result IsEntry }
    {
        let entry = Entry::make_settings(alloc, number, moment, bytes)?;
        Ok(entry)
    }

    fn make_settings(
        alloc: Global,
        number: u64,
        moment: Moment,
        bytes: &[u8],
    ) -> Result<Entry, NoMemory>
        ensures { IfOk result (λ entry. entry ≡ settings_entry number moment bytes.now) }
    {
        Ok(Entry {
            number,
            moment,
            caller: Bytes::new(alloc),
            what: What::Settings {
                bytes: Bytes::from_slice(alloc, bytes)?,
            },
        })
    }

    /// The entry of a challenge, whose value was drawn for it.
    pub fn challenge(
        alloc: Global,
        number: u64,
        moment: Moment,
        caller: &Caller,
        key: &Bytes,
        order: u64,
        method: Method,
        target: &Target,
        value: Sixteen,
        thumb: &Bytes,
    ) -> Result<Entry, NoMemory>
        requires caller { IsCaller caller.now }
        requires key { length key.now < 2 ^ 8 }
        requires target { IsTarget target.now }
        requires thumb { length thumb.now < 2 ^ 8 }
        // The thumbprint of an account's key stands with `AcmeHttp` alone.
        requires account { is_thumb_of method thumb.now ≡ true }
        ensures entry { IfOk result (λ entry. entry ≡ entry_with number moment caller.now.id
            (What.Challenge key.now order method target.now value thumb.now)) }
        ensures spelled { IfOk result IsEntry }
    {
        let caller = caller.id.copied(alloc)?;
        let key = key.copied(alloc)?;
        let target = target.copied(alloc)?;
        let thumb = thumb.copied(alloc)?;
        Ok(Entry::made_challenge(
            number, moment, caller, key, order, method, target, value, thumb,
        ))
    }

    #[tactic(auto, using(crate::proofs::Sizes::challenge_spelled))]
    fn made_challenge(
        number: u64,
        moment: Moment,
        caller: Bytes,
        key: Bytes,
        order: u64,
        method: Method,
        target: Target,
        value: Sixteen,
        thumb: Bytes,
    ) -> Entry
        requires caller { length caller ≤ 64 }
        requires key { length key < 2 ^ 8 }
        requires target { IsTarget target }
        requires thumb { length thumb < 2 ^ 8 }
        requires account { is_thumb_of method thumb ≡ true }
        ensures entry { result ≡ entry_with number moment caller (What.Challenge key order method target value thumb) }
        ensures spelled { IsEntry result }
    {
        Entry {
            number,
            moment,
            caller,
            what: What::Challenge {
                key,
                order,
                method,
                target,
                value,
                thumb,
            },
        }
    }

    /// The entry of a body that is sent for an order.
    pub fn send(
        alloc: Global,
        number: u64,
        moment: Moment,
        caller: &Caller,
        order: u64,
        body: Bytes,
    ) -> Result<Entry, NoMemory>
        requires caller { IsCaller caller.now }
        requires body { length body < 2 ^ 16 }
        ensures entry { IfOk result (λ entry. entry ≡ entry_with number moment caller.now.id (What.Send order body)) }
        ensures spelled { IfOk result IsEntry }
    {
        let caller = caller.id.copied(alloc)?;
        Ok(Entry::made_send(number, moment, caller, order, body))
    }

    #[tactic(auto, using(crate::proofs::Sizes::send_spelled))]
    fn made_send(number: u64, moment: Moment, caller: Bytes, order: u64, body: Bytes) -> Entry
        requires caller { length caller ≤ 64 }
        requires body { length body < 2 ^ 16 }
        ensures entry { result ≡ entry_with number moment caller (What.Send order body) }
        ensures spelled { IsEntry result }
    {
        Entry {
            number,
            moment,
            caller,
            what: What::Send { order, body },
        }
    }

    /// The entry of a signature. It takes no memory.
    #[tactic(auto, using(crate::proofs::Sizes::signed_spelled))]
    pub fn signed(number: u64, moment: Moment, caller: Bytes, order: u64, signature: Bytes) -> Entry
        requires caller { length caller ≤ 64 }
        requires signature { length signature ≤ 1024 }
        ensures entry { result ≡ entry_with number moment caller (What.Signed order signature) }
        ensures spelled { IsEntry result }
    {
        Entry {
            number,
            moment,
            caller,
            what: What::Signed { order, signature },
        }
    }
}
