// The zone of this machine.
use case_tables::Zone;
use jiff::Error;
use jiff::tz::{SystemTimeZone, TimeZoneDatabase};
use std::fs::File;
use std::rt::{Env, Files};
use std::{env, fs};

// Where the files of the zones are, by their names.
const ZONES: &str = "/usr/share/zoneinfo/";

/// The zone of this machine as it was read: that of TZ, or if TZ is not set, that of /etc/localtime.
#[derive(Drop)]
pub struct MachineZone {
    system: SystemTimeZone,
    // The zone that TZ names, if it names one.
    named: TimeZoneDatabase,
}

impl MachineZone {
    /// Reads it.
    ///
    /// # Errors
    ///
    /// In words, why it can't be read.
    pub fn read<R: AllocGlobal + Env + Files<File = File>>(
        rt: &R,
    ) -> Result<MachineZone, &'static str> {
        match MachineZone::found(rt) {
            Ok(machine) => Ok(machine),
            Err(error) => Err(reason(error)),
        }
    }

    fn found<R: AllocGlobal + Env + Files<File = File>>(rt: &R) -> Result<MachineZone, Error> {
        let machine = MachineZone {
            named: named_zone(rt)?,
            system: SystemTimeZone::read(rt)?,
        };
        // A name that no file has is found out here.
        machine.system.time_zone(&machine.named)?;
        Ok(machine)
    }

    /// The zone, in which times are shown and read.
    pub fn zone(&self) -> Zone<'_> {
        match self.system.time_zone(&self.named) {
            Ok(zone) => Zone::Local(zone),
            Err(_) => Zone::Utc,
        }
    }
}

// The zone that TZ names, such as `Europe/Berlin`, if it names one. `jiff` looks for a name in this database and below the current directory.
fn named_zone<R: AllocGlobal + Env + Files<File = File>>(
    rt: &R,
) -> Result<TimeZoneDatabase, Error> {
    let mut zones = TimeZoneDatabase::new(rt.alloc());
    let Ok(text) = env::var(rt, "TZ") else {
        return Ok(zones);
    };
    let name = text.strip_prefix(':').unwrap_or(text.as_str());
    if name.is_empty() || name.starts_with('/') || name.contains("..") {
        return Ok(zones);
    }
    let mut path = String::from_str(rt.alloc(), ZONES)?;
    path.push_str(name)?;
    if let Ok(bytes) = fs::read(rt, path.as_str()) {
        zones.insert(name, bytes.as_slice())?;
    }
    Ok(zones)
}

// Why a zone can't be read.
fn reason(error: Error) -> &'static str {
    match error {
        Error::TimeZoneNotFound => "TZ names no zone",
        Error::Tzif(_) => "its file is no file of a zone",
        Error::Io(_) => "its file can't be read",
        Error::OutOfMemory => "out of memory",
        _ => "TZ is no zone",
    }
}
