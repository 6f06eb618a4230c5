ghost use Rattle.std.specs.Prelude.{◌≡◌, IfOk, IfSome};
ghost use Rattle.gate_entries.specs.Spelling.{IsWhat, IsEntry};
ghost use Rattle.gate_entries.specs.Command.{what_of, entry_for, may_ask, IsCommand, IsCaller};

use crate::caa_answer::copied_caa;
use crate::caller::Caller;
use crate::entry::{Entry, What};
use crate::observation::copied_observation;
use crate::order::copied_order;
use gate_base::{Bytes, CaaSeen, Method, Moment, NoMemory, Plain, Role, Seen, Target, Targets};
use std::alloc::Global;

/// What a caller asks.
#[derive(Debug, Drop)]
pub enum Command {
    /// A certificate for the targets.
    Order {
        /// The caller's retry key: the same order under the same key is placed once.
        key: Bytes,
        targets: Targets,
        /// For how many days the certificate is to be valid.
        days: u16,
        /// Whether the first name is the subject's common name too.
        common: bool,
        /// The certificate request (RFC 2986), as DER.
        request: Bytes,
    },
    /// A random value by whose publication the account shows that it controls a target.
    Challenge {
        /// The caller's retry key.
        key: Bytes,
        /// The order's number.
        order: u64,
        target: Target,
        method: Method,
    },
    /// That what a perspective saw of a challenge be kept.
    Observe {
        /// The caller's retry key.
        key: Bytes,
        /// The challenge's number.
        challenge: u64,
        /// When it was seen, in seconds since 1970-01-01T00:00:00Z.
        seen_at: u64,
        seen: Seen,
    },
    /// That the CAA records which a perspective found for a target be kept (RFC 8659).
    ObserveCaa {
        /// The caller's retry key.
        key: Bytes,
        /// The order's number.
        order: u64,
        target: Target,
        /// When they were asked for, in seconds since 1970-01-01T00:00:00Z.
        seen_at: u64,
        caa: CaaSeen,
    },
    /// That an order's certificate be signed, or told again.
    Finalize {
        /// The order's number.
        order: u64,
    },
    /// That no certificate be signed for a key any more.
    Block {
        /// The caller's retry key.
        key: Bytes,
        /// The SubjectPublicKeyInfo (RFC 5280, section 4.1.2.7), as DER.
        spki: Bytes,
    },
}

impl Command {
    /// Whether a role has the command: an account may order, ask for a challenge and finalize, a perspective may tell what
    /// it saw, and an operator may block.
    pub fn allowed(&self, role: Role) -> bool
        ensures { result ≡ may_ask role self.now }
    {
        match self {
            Command::Order { .. } | Command::Challenge { .. } | Command::Finalize { .. } => {
                role == Role::Account
            }
            Command::Observe { .. } | Command::ObserveCaa { .. } => role == Role::Perspective,
            Command::Block { .. } => role == Role::Operator,
        }
    }

    /// The entry that this command writes; None where the command doesn't say all of it.
    pub fn entry(
        &self,
        alloc: Global,
        number: u64,
        moment: Moment,
        caller: &Caller,
    ) -> Result<Option<Entry>, NoMemory>
        requires command { IsCommand self.now }
        requires caller { IsCaller caller.now }
        ensures entry { IfOk result (λ entry. entry ≡ entry_for number moment caller.now self.now) }
        ensures spelled { IfOk result (λ entry. IfSome entry IsEntry) }
    {
        let entry = self.make_entry(alloc, number, moment, caller)?;
        Ok(entry)
    }

    fn make_entry(
        &self,
        alloc: Global,
        number: u64,
        moment: Moment,
        caller: &Caller,
    ) -> Result<Option<Entry>, NoMemory>
        requires { IsCommand self.now }
        ensures entry { IfOk result (λ entry. entry ≡ entry_for number moment caller.now self.now) }
        ensures what { IfOk result (λ entry. IfSome entry (λ e. IsWhat e.what)) }
    {
        let caller = caller.id.copied(alloc)?;
        let what = match self.what(alloc)? {
            Some(what) => what,
            None => return Ok(None),
        };
        Ok(Some(Entry {
            number,
            moment,
            caller,
            what,
        }))
    }

    /// What the command's entry says, where the command says all of it.
    #[tactic(auto, using(crate::proofs::Sizes::ordered, crate::proofs::Sizes::observed, crate::proofs::Sizes::answered))]
    fn what(&self, alloc: Global) -> Result<Option<What>, NoMemory>
        requires { IsCommand self.now }
        ensures what { IfOk result (λ what. what ≡ what_of self.now) }
        ensures spelled { IfOk result (λ what. IfSome what IsWhat) }
    {
        let what = match self {
            Command::Order {
                key,
                targets,
                days,
                common,
                request,
            } => copied_order(alloc, key, *common, *days, targets, request)?,
            Command::Observe {
                key,
                challenge,
                seen_at,
                seen,
            } => copied_observation(alloc, key, *challenge, *seen_at, seen)?,
            Command::ObserveCaa {
                key,
                order,
                target,
                seen_at,
                caa,
            } => copied_caa(alloc, key, *order, target, *seen_at, caa)?,
            Command::Block { key, spki } => What::Blocked {
                key: key.copied(alloc)?,
                spki: spki.copied(alloc)?,
            },
            Command::Challenge { .. } | Command::Finalize { .. } => return Ok(None),
        };
        Ok(Some(what))
    }
}
