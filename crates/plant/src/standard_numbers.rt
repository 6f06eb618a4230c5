//! The file numbers of standard input, standard output and standard error.

use std::fs::{File, Files};
use std::io;
use std::os::fd::AsRawFd;

/// A folder is read and written with an error alone, and each system has this one.
const FOLDER: &str = "/";

/// The greatest of the three numbers.
const LAST: i32 = 2;

/// What stands under those of the three numbers that were closed when the program started.
#[derive(Debug, Drop)]
pub struct StandardNumbers {
    _held: [Option<File>; 3],
}

impl StandardNumbers {
    /// Holds the closed ones open until it is dropped, so that no file that is opened later gets such a number.
    /// The system gives the least free number, so this is called before anything else is opened.
    /// What is then read from or written to a number that was closed fails.
    pub fn hold(files: &impl Files<File = File>) -> io::Result<StandardNumbers> {
        let mut held = [None, None, None];
        for place in &mut held {
            let file = File::open(files, FOLDER)?;
            if file.as_raw_fd() > LAST {
                break;
            }
            *place = Some(file);
        }
        Ok(StandardNumbers { _held: held })
    }
}
