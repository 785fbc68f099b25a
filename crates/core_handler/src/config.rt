// A configuration.
ghost use Rattle.toml.specs.View.{view};
ghost use Rattle.core_handler.specs.Config.{Says};

use crate::values::{age_at, burst_at, flag_at, natural_at, text_at};
use toml::Value;

/// So many cores of one program, in so many seconds.
#[derive(Clone, Copy, PartialEq, Eq)]
pub struct Burst {
    /// How many of them are stored.
    pub most: u64,
    /// In how many seconds.
    pub seconds: u64,
}

/// The fields of a configuration. A key that is missing, or whose value is invalid, sets nothing.
#[derive(Clone, Copy)]
pub struct Config<'t> {
    /// The archive's file.
    pub archive: Option<&'t str>,
    /// How many cases stay, not counting a new one.
    pub keep: Option<u64>,
    /// How many bytes the images of the cases that stay have.
    pub bytes: Option<u64>,
    /// How old a case may be, in seconds.
    pub before: Option<u64>,
    /// The most bytes of an image.
    pub limit: Option<u64>,
    /// Cases go so that a core finds room, the oldest cores first, unless `fair` says otherwise.
    pub fit: bool,
    /// If cases go so, the first is a core of the user whose cores have the most blocks.
    pub fair: bool,
    /// A core that has more bytes than the limit, or finds no room, is cut.
    pub cut: bool,
    /// How many cores of one program are stored in how many seconds.
    pub burst: Option<Burst>,
    /// A core whose process allows it less than a page is lost.
    pub obeys_limit: bool,
    /// How cores are named, a template of core(5).
    pub template: Option<&'t str>,
    /// Names get a dot and the process if their template has no `%p`.
    pub uses_pid: bool,
    /// A core is refused if another process has the archive.
    pub no_wait: bool,
    /// For how many seconds a non-blocking input may give nothing.
    pub stall: Option<u64>,
    /// The label of each new case.
    pub label: Option<&'t str>,
    /// The file to which each outcome is logged; no file if it is empty.
    pub log: Option<&'t str>,
    /// The directory into which a core goes first.
    pub spool: Option<&'t str>,
    /// The most bytes of the cores in that directory.
    pub spool_bytes: Option<u64>,
}

impl<'t> Config<'t> {
    /// The fields that a document sets. A value that is no table sets nothing.
    pub fn of(document: &'t Value) -> Config<'t>
        ensures { Says (view document.entry.now) result }
    {
        Config {
            archive: text_at(document, "archive"),
            keep: natural_at(document, "keep"),
            bytes: natural_at(document, "bytes"),
            before: age_at(document, "before"),
            limit: natural_at(document, "limit"),
            fit: flag_at(document, "fit"),
            fair: flag_at(document, "fair"),
            cut: flag_at(document, "cut"),
            burst: burst_at(document, "burst"),
            obeys_limit: flag_at(document, "obey-limit"),
            template: text_at(document, "template"),
            uses_pid: flag_at(document, "uses-pid"),
            no_wait: flag_at(document, "no-wait"),
            stall: natural_at(document, "stall"),
            label: text_at(document, "label"),
            log: text_at(document, "log"),
            spool: text_at(document, "spool"),
            spool_bytes: natural_at(document, "spool-bytes"),
        }
    }
}
