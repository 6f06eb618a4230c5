//! Times, attributes and extensions, as they stand in a body.
ghost use Rattle.std.specs.Prelude.{◌≡◌, option_map};
ghost use Rattle.tbs_shape.specs.Body as spec;

use std::marker::Model;

/// An element without parts.
#[derive(Drop)]
pub struct Primitive<'a> {
    tag: u8,
    content: &'a [u8],
}

impl<'a> Model for Primitive<'a> {
    ghost use Rattle.tbs_shape.specs.Body as seen;

    ghost Value = { seen.Primitive };

    ghost view = { λ p. record { tag = p.tag; content = p.content.now } };
}

impl<'a> Primitive<'a> {
    pub(crate) fn new(tag: u8, content: &'a [u8]) -> Primitive<'a>
        ensures { result ≡ record { tag = tag; content = content.now } }
    {
        Primitive { tag, content }
    }

    pub fn tag(&self) -> u8
        ensures { result ≡ self.now.tag }
    {
        self.tag
    }

    pub fn content(&self) -> &'a [u8]
        ensures { result.now ≡ self.now.content }
    {
        self.content
    }
}

/// An attribute of the subject (RFC 5280, section 4.1.2.4).
#[derive(Drop)]
pub struct Attribute<'a> {
    identifier: &'a [u8],
    value: Primitive<'a>,
}

impl<'a> Model for Attribute<'a> {
    ghost use Rattle.tbs_shape.specs.Body as seen;

    ghost Value = { seen.Attribute };

    ghost view = { λ a. record { identifier = a.identifier.now; value = a.value } };
}

impl<'a> Attribute<'a> {
    pub(crate) fn new(identifier: &'a [u8], value: Primitive<'a>) -> Attribute<'a>
        ensures { result ≡ record { identifier = identifier.now; value = value.entry } }
    {
        Attribute { identifier, value }
    }

    /// The content of the OBJECT IDENTIFIER that names its type.
    pub fn identifier(&self) -> &'a [u8]
        ensures { result.now ≡ self.now.identifier }
    {
        self.identifier
    }

    pub fn value(&self) -> &Primitive<'a>
        ensures { result.now ≡ self.now.value }
    {
        &self.value
    }
}

/// An extension (RFC 5280, section 4.2).
#[derive(Drop)]
pub struct Extension<'a> {
    identifier: &'a [u8],
    critical: bool,
    value: &'a [u8],
}

impl<'a> Model for Extension<'a> {
    ghost use Rattle.tbs_shape.specs.Body as seen;

    ghost Value = { seen.Extension };

    ghost view = { λ e. record { identifier = e.identifier.now; critical = e.critical; value = e.value.now } };
}

impl<'a> Extension<'a> {
    pub(crate) fn new(identifier: &'a [u8], critical: bool, value: &'a [u8]) -> Extension<'a>
        ensures { result ≡ record { identifier = identifier.now; critical = critical; value = value.now } }
    {
        Extension {
            identifier,
            critical,
            value,
        }
    }

    /// The content of the OBJECT IDENTIFIER that names it.
    pub fn identifier(&self) -> &'a [u8]
        ensures { result.now ≡ self.now.identifier }
    {
        self.identifier
    }

    pub fn is_critical(&self) -> bool
        ensures { result ≡ self.now.critical }
    {
        self.critical
    }

    /// The content of its OCTET STRING.
    pub fn value(&self) -> &'a [u8]
        ensures { result.now ≡ self.now.value }
    {
        self.value
    }
}
