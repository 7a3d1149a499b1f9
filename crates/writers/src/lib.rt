// One face over the writers, for records of any kind.
#![tactic(auto)]

ghost use Rattle.kinds.specs.Kinds.{rule_of};
ghost use Rattle.writing.specs.Writing.{Writes};
ghost use Rattle.writers.specs.Spellings.{kind_of, spelling};

use date_writer::write_date;
use datetime_writer::write_datetime;
use duration_writer::write_duration;
use interval_writer::write_interval;
use kinds::answer::Record;
use offset_writer::write_offset;
use time_writer::write_time;
use types::Choices;
use writing::Unwritten;

// Writes the record's spelling to the front of the buffer, under the choices.
pub fn write(value: Record, choices: Choices, buffer: &mut [u8]) -> Result<usize, Unwritten>
    ensures { Writes (rule_of (kind_of choices value)) value (spelling value) buffer.old buffer.new result }
{
    match value {
        Record::Date(v) => write_date(v, buffer),
        Record::Time(v) => write_time(v, choices, buffer),
        Record::Offset(v) => write_offset(v, buffer),
        Record::Stamp(v) => write_datetime(v, choices, buffer),
        Record::Duration(v) => write_duration(v, buffer),
        Record::Interval(v) => write_interval(v, choices, buffer),
    }
}
