//! What reports say of true counts, whoever is answered: `analyse`, a host in C, a reader of what
//! is printed; and the limits as numbers.
ghost use Rattle.std.specs.Prelude.{◌≡◌};
ghost use Rattle.files.specs.Counted.{AnalysedCounts};
ghost use Rattle.files.specs.ByModel.{ReportsCountTruly};

use crate::limits::{
    DEMAND_BYTES, DEMANDS, FEWEST_RECORDS, LONGEST_REPORT, LOOKED_AT, NEED_LINE, NO_RECORD,
    RECORDS, ROOM, STATE_BYTES, TERM_LINE,
};
use crate::models::for_each_model;
use crate::words::{FilePerformance, FileWeight};
use kinds::performance::Performance;
use kinds::values;
use kinds::weight::Weight;

macro_rules! reports_of_model_count_truly {
    (() $number:literal, $kind:ty, $weight:ty, $unused:expr) => {
        reports_of_kind_count_truly::<$kind, $weight>();
    };
}

/// Of every file whose weights count up to a top: whatever is analysed as a report is that of the
/// true row, each weight stopped at the top once.
pub fn reports_count_truly()
    ensures { ReportsCountTruly }
{
    for_each_model!(reports_of_model_count_truly());
}

fn reports_of_kind_count_truly<P: Performance + FilePerformance, W: Weight + FileWeight>()
    ensures { AnalysedCounts P.Performance W.Weight P.FilePerformance W.FileWeight }
{}

/// The limits, as numbers: code and definitions read the same constants.
pub fn limits_are_these()
    ensures fewest_records { FEWEST_RECORDS ≡ 2 }
    ensures records { RECORDS ≡ 49 }
    ensures demands { DEMANDS ≡ 16 }
    ensures demand_bytes { DEMAND_BYTES ≡ 8 }
    ensures state_bytes { STATE_BYTES ≡ 16 }
    ensures room { ROOM ≡ 255 }
    ensures no_record { NO_RECORD ≡ 255 }
    ensures need_line { NEED_LINE ≡ 56 }
    ensures term_line { TERM_LINE ≡ 38 }
    ensures longest_report { LONGEST_REPORT ≡ 3328 }
    ensures looked_at { LOOKED_AT ≡ 50001 }
{}
