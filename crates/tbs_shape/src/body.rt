//! What a body says.
ghost use Rattle.std.specs.Prelude.{◌≡◌, map, option_map};
ghost use Rattle.tbs_shape.specs.View as shown;
ghost use Rattle.der_text.specs.View.{nodes};
ghost use Rattle.der_text.specs.Parts as parts_spec;

use crate::layout::{Kept, Layout};
use crate::value::{Attribute, Extension, Primitive};
use der_text::are_none;
use std::marker::Model;

/// The body of a certificate, part by part (RFC 5280, section 4.1). It borrows from the bytes that were read.
#[derive(Drop)]
pub struct Body<'a> {
    version: Option<&'a [u8]>,
    serial: &'a [u8],
    algorithm: &'a [u8],
    issuer: &'a [u8],
    not_before: Primitive<'a>,
    not_after: Primitive<'a>,
    subject_is_empty: bool,
    subject: Vec<Attribute<'a>>,
    key_algorithm: &'a [u8],
    key_bits: &'a [u8],
    has_unique_id: bool,
    extensions: Option<Vec<Extension<'a>>>,
}

impl<'a> Model for Body<'a> {
    ghost use Rattle.std.specs.Prelude.{option_map};
    ghost use Rattle.tbs_shape.specs.Body as seen;

    ghost Value = { seen.Body };

    ghost view = { λ b. record {
      version = option_map (λ version. version.now) b.version;
      serial = b.serial.now;
      algorithm = b.algorithm.now;
      issuer = b.issuer.now;
      not_before = b.not_before;
      not_after = b.not_after;
      subject_is_empty = b.subject_is_empty;
      subject = b.subject.items;
      key_algorithm = b.key_algorithm.now;
      key_bits = b.key_bits.now;
      has_unique_id = b.has_unique_id;
      extensions = option_map (λ extensions. extensions.items) b.extensions;
    } };
}

impl<'a> Body<'a> {
    pub(crate) fn new(
        layout: &Layout<'_, 'a>,
        kept: Kept<'a>,
        times: (Primitive<'a>, Primitive<'a>),
        subject: Vec<Attribute<'a>>,
        extensions: Option<Vec<Extension<'a>>>,
    ) -> Body<'a>
        ensures { result ≡ record {
          version = (shown.layout layout.now).version;
          serial = (shown.layout layout.now).serial;
          algorithm = (shown.kept kept.entry).algorithm;
          issuer = (shown.kept kept.entry).issuer;
          not_before = times.entry.0;
          not_after = times.entry.1;
          subject_is_empty = parts_spec.are_none (shown.layout layout.now).subject;
          subject = subject.entry.items;
          key_algorithm = (shown.kept kept.entry).key_algorithm;
          key_bits = (shown.layout layout.now).key_bits;
          has_unique_id = (shown.layout layout.now).has_unique_id;
          extensions = option_map (λ extensions. extensions.items) extensions.entry;
        } }
    {
        let (not_before, not_after) = times;
        Body {
            version: layout.version,
            serial: layout.serial,
            algorithm: kept.algorithm,
            issuer: kept.issuer,
            not_before,
            not_after,
            subject_is_empty: are_none(layout.subject),
            subject,
            key_algorithm: kept.key_algorithm,
            key_bits: layout.key_bits,
            has_unique_id: layout.has_unique_id,
            extensions,
        }
    }

    /// The content of the version's INTEGER.
    pub fn version(&self) -> Option<&'a [u8]>
        ensures { option_map (λ version. version.now) result ≡ self.now.version }
    {
        self.version
    }

    /// The content of the serial number's INTEGER.
    pub fn serial(&self) -> &'a [u8]
        ensures { result.now ≡ self.now.serial }
    {
        self.serial
    }

    /// The algorithm of the signature, as DER.
    pub fn algorithm(&self) -> &'a [u8]
        ensures { result.now ≡ self.now.algorithm }
    {
        self.algorithm
    }

    /// The issuer's name, as DER.
    pub fn issuer(&self) -> &'a [u8]
        ensures { result.now ≡ self.now.issuer }
    {
        self.issuer
    }

    pub fn not_before(&self) -> &Primitive<'a>
        ensures { result.now ≡ self.now.not_before }
    {
        &self.not_before
    }

    pub fn not_after(&self) -> &Primitive<'a>
        ensures { result.now ≡ self.now.not_after }
    {
        &self.not_after
    }

    /// Whether the subject is the empty SEQUENCE.
    pub fn has_empty_subject(&self) -> bool
        ensures { result ≡ self.now.subject_is_empty }
    {
        self.subject_is_empty
    }

    /// The attributes of the subject, in their order.
    pub fn subject(&self) -> &[Attribute<'a>]
        ensures { result.now ≡ self.now.subject }
    {
        self.subject.as_slice()
    }

    /// The key's algorithm, as DER.
    pub fn key_algorithm(&self) -> &'a [u8]
        ensures { result.now ≡ self.now.key_algorithm }
    {
        self.key_algorithm
    }

    /// The content of the key's BIT STRING.
    pub fn key_bits(&self) -> &'a [u8]
        ensures { result.now ≡ self.now.key_bits }
    {
        self.key_bits
    }

    /// Whether issuerUniqueID or subjectUniqueID is there.
    pub fn has_unique_id(&self) -> bool
        ensures { result ≡ self.now.has_unique_id }
    {
        self.has_unique_id
    }

    /// The extensions, in their order.
    pub fn extensions(&self) -> Option<&[Extension<'a>]>
        ensures { option_map (λ extensions. extensions.now) result ≡ self.now.extensions }
    {
        match &self.extensions {
            Some(extensions) => Some(extensions.as_slice()),
            None => None,
        }
    }
}
