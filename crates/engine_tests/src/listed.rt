//! The orders that a gate places, as a plain list.

use crate::commands::{
    Asked, BEGUN, CLOCK_FAULT, CLOCK_RANGE, DISK_FAULT, FIRST, FULL, KEY_REUSED, LAST, MOST_BYTES,
    PLACED, Said, content_of, id_of, key_of,
};
use crate::requests::request;
use std::alloc::Global;
use std::process::Abort;

/// An order that was placed.
#[derive(Clone, Copy, Debug)]
pub struct Row {
    pub number: u64,
    pub moment: u64,
    pub caller: u8,
    pub key: u8,
    pub content: u8,
}

/// The orders that the disk holds behind the settings, the journal's size, and what the outside will do.
#[derive(Drop)]
pub struct Rows<'a> {
    pub rows: Vec<Row>,
    pub size: u64,
    /// Whether a commit failed since the disk was last read.
    pub loose: bool,
    pub calls: u64,
    pub fails: &'a [u64],
    pub readings: &'a [Option<u64>],
    pub read: usize,
}

impl Rows<'_> {
    /// Whether the next call of the disk fails.
    pub fn next_call_fails(&mut self) -> bool {
        self.calls = self.calls.saturating_add(1);
        for call in self.fails {
            if *call == self.calls {
                return true;
            }
        }
        false
    }

    /// The next reading; the last one stays.
    pub fn next_reading(&mut self) -> Option<u64> {
        let reading = match self.readings.get(self.read) {
            Some(reading) => *reading,
            None => None,
        };
        if self.read.saturating_add(1) < self.readings.len() {
            self.read = self.read.saturating_add(1);
        }
        reading
    }

    /// Whether the journal was mounted again: the disk is synced, measured, and read in two pieces.
    pub fn is_read_again(&mut self) -> bool {
        for _ in 0..4 {
            if self.next_call_fails() {
                return false;
            }
        }
        self.loose = false;
        true
    }

    pub fn row_under(&self, caller: u8, key: u8) -> Option<Row> {
        for row in self.rows.as_slice() {
            if row.caller == caller && row.key == key {
                return Some(*row);
            }
        }
        None
    }

    /// The number and the moment of the next order.
    pub fn next_row(&self, reading: u64) -> (u64, u64) {
        let mut number: u64 = 2;
        let mut moment = BEGUN;
        for row in self.rows.as_slice() {
            number = number.saturating_add(1);
            moment = row.moment;
        }
        if moment < reading {
            moment = reading;
        }
        (number, moment)
    }

    /// Commits an order in four calls. A write that fails writes nothing, so the order stands if the gate's write was done.
    pub fn place(&mut self, rt: &impl Abort, alloc: Global, row: Row) -> Said {
        let payload = payload(rt, alloc, row);
        let size = self
            .size
            .saturating_add(37)
            .saturating_add(payload.len() as u64);
        if MOST_BYTES < size {
            return (FULL, 0);
        }
        self.loose = true;
        for _ in 0..3 {
            if self.next_call_fails() {
                return (DISK_FAULT, 0);
            }
        }
        self.rows.push(row).expect(rt, "memory");
        self.size = size;
        if self.next_call_fails() {
            return (DISK_FAULT, 0);
        }
        self.loose = false;
        (PLACED, row.number)
    }

    pub fn answer(&mut self, rt: &impl Abort, alloc: Global, asked: Asked) -> Said {
        let (caller, key, content) = asked;
        if self.loose && !self.is_read_again() {
            return (DISK_FAULT, 0);
        }
        let Some(reading) = self.next_reading() else {
            return (CLOCK_FAULT, 0);
        };
        if reading < FIRST || LAST < reading {
            return (CLOCK_RANGE, reading);
        }
        match self.row_under(caller, key) {
            Some(row) if row.content == content => (PLACED, row.number),
            Some(row) => (KEY_REUSED, row.number),
            None => {
                let (number, moment) = self.next_row(reading);
                let row = Row {
                    number,
                    moment,
                    caller,
                    key,
                    content,
                };
                self.place(rt, alloc, row)
            }
        }
    }
}

pub fn put(rt: &impl Abort, out: &mut Vec<u8>, piece: &[u8]) {
    out.extend_from_slice(piece).expect(rt, "memory");
}

/// A text behind its length in one byte.
pub fn put_counted(rt: &impl Abort, out: &mut Vec<u8>, text: &[u8]) {
    let size = u8::try_from(text.len()).expect(rt, "a short text");
    put(rt, out, &[size]);
    put(rt, out, text);
}

/// The payload of an order's group.
pub fn payload(rt: &impl Abort, alloc: Global, row: Row) -> Vec<u8> {
    let content = content_of(row.content);
    let mut out = Vec::new(alloc);
    put(rt, &mut out, &[2]);
    put(rt, &mut out, &row.number.to_be_bytes());
    put(rt, &mut out, &row.moment.to_be_bytes());
    put(rt, &mut out, &[0]);
    put_counted(rt, &mut out, id_of(row.caller));
    put_counted(rt, &mut out, key_of(row.key));
    put(rt, &mut out, &[u8::from(content.common)]);
    put(rt, &mut out, &content.days.to_be_bytes());
    put(rt, &mut out, &[1, 1, 0]);
    put_counted(rt, &mut out, content.name);
    let request = request(rt, alloc, content.request);
    put(rt, &mut out, b"\0\x76");
    put(rt, &mut out, request.as_slice());
    out
}
