//! What the table promises over several calls.

ghost use Rattle.std.specs.Prelude.{◌≡◌, ◌≢◌, None};
ghost use Rattle.std.specs.FinMap as map;
ghost use Rattle.dap_messages.specs.declared.job.JobNo.{JobNo};
ghost use Rattle.replay_table.specs.Reports.{Report, report_order};

/// A law: a report that is entered and taken out again leaves the table as it was, and one that is taken out isn't held.
pub fn a_report_taken_out_leaves_no_trace()
    ensures same { (table : map.FinMap report_order JobNo) (report : Report) (job : JobNo) → map.get table report ≡ None
        → map.remove (map.insert table report job) report ≡ table }
    ensures out { (table : map.FinMap report_order JobNo) (report : Report)
        → map.get (map.remove table report) report ≡ None }
    ensures others { (table : map.FinMap report_order JobNo) (report other : Report) → report ≢ other
        → map.get (map.remove table report) other ≡ map.get table other }
{}
