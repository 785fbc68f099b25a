// The text.
ghost use Rattle.std.specs.Prelude.{◌≡◌};
ghost use Rattle.std.specs.List.{flat_map};
ghost use Rattle.script_streams.specs.Replies.{PrintsText, printing};
ghost use Rattle.command_line.specs.Metrics.{handled_sample, handled_samples, handled_text, label_byte, metric_text, metrics_text, newest_text, reason_label, sample_text};

use case_tables::ArchiveFacts;
use handler_files::{ALL, Counter, Counts, Reason};
use script_streams::{Output, Reply};

// A metric: its name, its type, and its help text.
#[derive(Clone, Copy)]
struct Metric {
    name: &'static [u8],
    kind: &'static [u8],
    help: &'static [u8],
}

const CORES: Metric = Metric {
    name: b"corekeep_cores",
    kind: b"gauge",
    help: b"Cores in the archive.",
};

const EXECUTABLES: Metric = Metric {
    name: b"corekeep_executables",
    kind: b"gauge",
    help: b"Executables in the archive.",
};

const PINNED: Metric = Metric {
    name: b"corekeep_pinned",
    kind: b"gauge",
    help: b"Cases that are pinned.",
};

const DATA_BLOCKS: Metric = Metric {
    name: b"corekeep_data_blocks",
    kind: b"gauge",
    help: b"Data blocks of 4096 bytes.",
};

const FREE_BLOCKS: Metric = Metric {
    name: b"corekeep_free_blocks",
    kind: b"gauge",
    help: b"Data blocks that no case has.",
};

const HALF_BYTES: Metric = Metric {
    name: b"corekeep_half_bytes",
    kind: b"gauge",
    help: b"Bytes of a half of the journal.",
};

const USED_BYTES: Metric = Metric {
    name: b"corekeep_used_bytes",
    kind: b"gauge",
    help: b"Bytes in use of the half of the journal that counts.",
};

const STORED: Metric = Metric {
    name: b"corekeep_cases_stored_total",
    kind: b"counter",
    help: b"Cases that were ever stored: the highest number that was given.",
};

const NEWEST: Metric = Metric {
    name: b"corekeep_newest_core_timestamp_seconds",
    kind: b"gauge",
    help: b"The time of the newest core.",
};

// The help and the type of the counts of the handler.
const HANDLED_HEAD: &[u8] =
    b"# HELP corekeep_handled_total Cores that the handler stored, cut, kept in the spool or lost, and cases that it dropped for them.
# TYPE corekeep_handled_total counter
";

/// Prints the facts of the archive in a file of this path, as the text of Prometheus and of OpenMetrics: for each metric its help, its type,
/// and one sample with the path as the label `archive`; then a sample for each counter of its handler, if there are counts; and then `# EOF`.
/// The time of the newest core is left out if no core has one.
pub fn print_metrics<O: Output>(
    reply: &mut Reply<'_, O>,
    path: &[u8],
    facts: &ArchiveFacts,
    counts: Option<Counts>,
)
    ensures { PrintsText (printing O.Output reply.old reply.new) (metrics_text path.now facts.now counts) }
{
    print_metric(reply, CORES, path, facts.cores);
    print_metric(reply, EXECUTABLES, path, facts.executables);
    print_metric(reply, PINNED, path, facts.pinned);
    print_metric(reply, DATA_BLOCKS, path, u64::from(facts.data_blocks));
    print_metric(reply, FREE_BLOCKS, path, facts.free_blocks);
    print_metric(reply, HALF_BYTES, path, facts.half);
    print_metric(reply, USED_BYTES, path, facts.used);
    print_metric(reply, STORED, path, facts.last_number);
    print_newest(reply, path, facts.newest);
    print_handled(reply, path, counts);
    reply.print(b"# EOF\n");
}

// Prints the handler's counters.
fn print_handled<O: Output>(reply: &mut Reply<'_, O>, path: &[u8], counts: Option<Counts>)
    ensures { PrintsText (printing O.Output reply.old reply.new) (handled_text path.now counts) }
{
    let Some(counts) = counts else {
        return;
    };
    reply.print(HANDLED_HEAD);
    print_samples(reply, path, &ALL, &counts);
}

// Prints the samples of these counters.
fn print_samples<O: Output>(
    reply: &mut Reply<'_, O>,
    path: &[u8],
    counters: &[Counter],
    counts: &Counts,
)
    ensures { PrintsText (printing O.Output reply.old reply.new) (handled_samples path.now counters.now counts.now.counts) }
{
    for counter in counters {
        print_counter(reply, path, *counter, counts.of(*counter));
    }
}

fn print_counter<O: Output>(reply: &mut Reply<'_, O>, path: &[u8], counter: Counter, count: u64)
    ensures { PrintsText (printing O.Output reply.old reply.new) (handled_sample path.now counter count) }
{
    reply.print(b"corekeep_handled_total{archive=\"");
    print_label(reply, path);
    reply.print(b"\",outcome=\"");
    reply.print(counter.outcome());
    reply.print(b"\"");
    print_reason(reply, counter.reason());
    reply.print(b"} ");
    reply.print_decimal(u128::from(count));
    reply.print(b"\n");
}

fn print_reason<O: Output>(reply: &mut Reply<'_, O>, reason: Option<Reason>)
    ensures { PrintsText (printing O.Output reply.old reply.new) (reason_label reason) }
{
    let Some(reason) = reason else {
        return;
    };
    reply.print(b",reason=\"");
    reply.print(reason.word());
    reply.print(b"\"");
}

fn print_newest<O: Output>(reply: &mut Reply<'_, O>, path: &[u8], newest: u64)
    ensures { PrintsText (printing O.Output reply.old reply.new) (newest_text path.now newest) }
{
    if newest != 0 {
        print_metric(reply, NEWEST, path, newest);
    }
}

fn print_metric<O: Output>(reply: &mut Reply<'_, O>, metric: Metric, path: &[u8], value: u64)
    ensures { PrintsText (printing O.Output reply.old reply.new) (metric_text metric.name.now metric.kind.now metric.help.now path.now value) }
{
    reply.print(b"# HELP ");
    reply.print(metric.name);
    reply.print(b" ");
    reply.print(metric.help);
    reply.print(b"\n# TYPE ");
    reply.print(metric.name);
    reply.print(b" ");
    reply.print(metric.kind);
    reply.print(b"\n");
    print_sample(reply, metric.name, path, value);
}

fn print_sample<O: Output>(reply: &mut Reply<'_, O>, name: &[u8], path: &[u8], value: u64)
    ensures { PrintsText (printing O.Output reply.old reply.new) (sample_text name.now path.now value) }
{
    reply.print(name);
    reply.print(b"{archive=\"");
    print_label(reply, path);
    reply.print(b"\"} ");
    reply.print_decimal(u128::from(value));
    reply.print(b"\n");
}

// Prints a text as the value of a label.
fn print_label<O: Output>(reply: &mut Reply<'_, O>, text: &[u8])
    ensures { PrintsText (printing O.Output reply.old reply.new) (flat_map label_byte text.now) }
{
    for byte in text {
        print_label_byte(reply, *byte);
    }
}

fn print_label_byte<O: Output>(reply: &mut Reply<'_, O>, byte: u8)
    ensures { PrintsText (printing O.Output reply.old reply.new) (label_byte byte) }
{
    match byte {
        b'\\' => reply.print(b"\\\\"),
        b'"' => reply.print(b"\\\""),
        b'\n' => reply.print(b"\\n"),
        _ => reply.print(&[byte]),
    }
}
