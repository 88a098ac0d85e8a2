//! What the program writes of reports is read back: the text of `report_text::reports_text` is one that `path_reader::read_reports`
//! reads as the same reports, with the number of its edge as the callback of each.
//!
//! - `Feeds` (of `proofs/`): no head has a line feed but at its end.
//! - `Parts`: the text is put together as the reader has it.
#![tactic(auto)]

ghost use Rattle.std.specs.Prelude.{List, length, map};
ghost use Rattle.std.specs.List.{AllByRecursion};
ghost use Rattle.app_model.specs.Components.{ComponentParts};
ghost use Rattle.app_model.specs.Parts.{AppParts};
ghost use Rattle.path_reader.specs.Texts.{FitsRow, IsReportsText, as_read, report_parts};
ghost use Rattle.report_path.specs.declared.report.Report.{Report};
ghost use Rattle.report_text.specs.Reports.{reports_text};
ghost use Rattle.read_back.specs.Fitting.{IsReadable};

/// Reports are read back from their text, where their numbers fit those of a report, and there are fewer than 2^32 of them.
pub fn reports_are_read_back()
    ensures { (app : AppParts) (list : List ComponentParts) (reports : List Report) → AllByRecursion IsReadable reports → FitsRow (length reports)
        → IsReportsText (reports_text app list reports) (map (λ r. as_read (report_parts r)) reports) }
{}
