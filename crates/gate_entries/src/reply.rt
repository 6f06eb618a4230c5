use gate_base::{Bytes, Moment, Sequence, Sixteen, Target};

/// What a caller is answered.
#[derive(Debug, Drop)]
pub enum Reply {
    /// The order was placed, now or before, under the same key with the same content.
    Placed {
        order: u64,
    },
    /// The challenge was made, now or before, by the entry with that number; the text is to be published.
    ChallengeMade {
        challenge: u64,
        text: Bytes,
    },
    /// What the perspective saw is kept, now or before, in the entry with that number.
    Observed {
        number: u64,
    },
    /// The order's certificate, as DER, with the serial number of its body.
    Issued {
        order: u64,
        serial: Sixteen,
        certificate: Bytes,
    },
    /// The key was blocked, now or before, by the entry with that number.
    Blocked {
        number: u64,
    },
    /// The caller's role doesn't have the command.
    RoleDenied,
    /// The clock gave a reading before 2025-09-15 or after 2099-12-31.
    ClockRange {
        reading: u64,
    },
    /// The caller has no order with that number.
    NoSuchOrder,
    /// There is no challenge with that number.
    NoSuchChallenge,
    /// The key stands with other content, in the entry with that number.
    KeyReused {
        kept: u64,
    },
    /// A field breaks a rule, of which the least number is told.
    BadFields {
        rule: u8,
    },
    /// What was seen was seen after the moment `m` of the command, or more than 300 seconds before it.
    ObservationLate {
        m: Moment,
    },
    /// The drawn bytes stand already; `value` is what was drawn.
    EntropyRepeat {
        value: Sixteen,
    },
    /// The order may not be sent to the signer, for each of these reasons.
    Refused {
        why: Whys,
    },
    /// The journal has no room for what was to be written.
    Full,
    ClockFault,
    EntropyFault,
    DiskFault,
    /// The signer didn't answer. What it was to sign is recorded and may have reached it.
    SignerFault,
    /// The journal on the disk is no longer this history's.
    JournalBad {
        at: u64,
    },
    NoMemory,
}

/// Why an order may not be sent to the signer. Of a target the proof of control and its CAA records each give one reason at
/// most, and the first in this order is told.
#[derive(Debug, Drop)]
pub enum Why {
    /// The order's key is blocked by the entry with that number.
    KeyBlocked {
        number: u64,
    },
    /// Nothing that the account showed covers the target.
    NoProof {
        target: Target,
    },
    /// Fewer remote perspectives corroborate the last evidence than are needed.
    ProofTooFew {
        target: Target,
        good: u64,
        needed: u64,
    },
    /// The remote perspectives that corroborate the last evidence lie in too few regions.
    ProofOneRegion {
        target: Target,
    },
    /// The newest corroborated evidence was seen too long ago to be used again.
    ProofOld {
        target: Target,
        seen_at: Moment,
    },
    /// The primary perspective has no CAA answers for the target.
    CaaMissing {
        target: Target,
    },
    /// Its question for the name without so many of its first labels was not answered.
    CaaUnknown {
        target: Target,
        drop: u64,
    },
    /// Its answers could be used until this moment.
    CaaOld {
        target: Target,
        until: Moment,
    },
    /// A record with this tag is critical and isn't understood.
    CaaCritical {
        target: Target,
        tag: Bytes,
    },
    /// The records of the name without so many of its first labels permit none of the authority's names.
    CaaDenied {
        target: Target,
        drop: u64,
    },
    /// The answers of fewer remote perspectives permit issuance than are needed.
    CaaTooFew {
        target: Target,
        good: u64,
        needed: u64,
    },
    /// The remote perspectives whose answers permit issuance lie in too few regions.
    CaaOneRegion {
        target: Target,
    },
}

pub type Whys = Sequence<Why>;
