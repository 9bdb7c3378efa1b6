// Laws of the definitions.
ghost use Rattle.cs_search.specs.SearchLaws.{SkippedFilesHaveNoMatch, SearchesAgreeWithCgrep, IndexesOfJobsAreWhole, IndexesOfJobsAreAccepted, FirstJobsReadAsIndexed, FirstJobsMeetPremises, UnchangedFilesHaveNoFault, SameSearchesDecideAlike, SameSearchesPrintTheirFiles, SameSearchesPrintAlike, MatchingFilesAreCandidates, CandidatesHaveExactRuns};
ghost use Rattle.cs_search.specs.StyleLaws.{FaultsAreMarkedAlike, FaultsArePrintedAlike, FaultsHaveNoCount, InputsAreBegun, InputsAreReported, LinesArePrintedAlike, MatchesAreMarked, NamesArePrintedAlike, NothingIsBetween, StreamsAreReported, TextsAreBegun, TextsAreMarkedAlike, TextsArePrintedAlike, TextsAreReported, TotalsArePrintedAlike};

/// If files read as they were indexed, those that a sound query excludes have no matching line:
/// leaving them out changes nothing that either tool prints.
pub fn skipped_files_have_no_match()
    ensures { SkippedFilesHaveNoMatch }
{}

/// If each file reads as it was indexed, a search by an index prints what cgrep prints for all
/// names that `-f` keeps, and after an error a prefix of that: this follows from the clause
/// `searches` of `csearch`.
pub fn searches_agree_with_cgrep()
    ensures { SearchesAgreeWithCgrep }
{}

/// An index that jobs left, or an existing one that they may start from, opens, and all its lists
/// are whole. So with accepted patterns a search fails only for a failed write or out of memory.
pub fn indexes_of_jobs_are_accepted()
    ensures whole { IndexesOfJobsAreWhole }
    ensures accepted { IndexesOfJobsAreAccepted }
{}

/// After a first job each indexed file reads as it was indexed while the tree stays unchanged: the
/// premises of the last part of the main promise hold.
pub fn first_jobs_satisfy_the_premises()
    ensures reads { FirstJobsReadAsIndexed }
    ensures premises { FirstJobsMeetPremises }
{}

/// If each indexed file still reads as it was indexed, a search prints no fault line.
pub fn unchanged_files_have_no_fault()
    ensures { UnchangedFilesHaveNoFault }
{}

/// Searching by an index of jobs prints what `cgrep` prints for the selected names, with any
/// standard input. `decided` gives the premise of `prints` of `IsGrep`.
pub fn searches_are_those_of_cgrep()
    ensures decided { SameSearchesDecideAlike }
    ensures files { SameSearchesPrintTheirFiles }
    ensures promised { SameSearchesPrintAlike }
{}

/// Each file with a matching line is a candidate, if it reads as it was indexed, and each candidate
/// has the trigrams of the pattern's exact runs.
pub fn candidates_lie_between()
    ensures with_match { MatchingFilesAreCandidates }
    ensures exact_runs { CandidatesHaveExactRuns }
{}

/// What cs_lines prints of lines by the options of a style is what the style prints: the lines, and
/// for a text that is read to its end a count or its name; at a fault a name, and no count. A line
/// is marked if and only if one matches, and nothing is printed between texts.
pub fn lines_are_printed_alike()
    ensures lines { LinesArePrintedAlike }
    ensures totals { TotalsArePrintedAlike }
    ensures names { NamesArePrintedAlike }
    ensures no_count { FaultsHaveNoCount }
    ensures marked { MatchesAreMarked }
    ensures between { NothingIsBetween }
{}

/// What cs_lines prints for a text by the options of a style is the output of its report, also of a
/// text that is read up to a fault.
pub fn texts_are_printed_alike()
    ensures texts { TextsArePrintedAlike }
    ensures marked { TextsAreMarkedAlike }
    ensures faults { FaultsArePrintedAlike }
    ensures faults_marked { FaultsAreMarkedAlike }
{}

/// What cs_lines says of a text that it read block by block, by the options of a style, is what the
/// report says: its output, its match and its fault.
pub fn streams_are_reported()
    ensures { StreamsAreReported }
{}

/// What `print_input` and `print_text` of cs_lines promise, by the options of a style, is what the
/// report says; after an error they have printed what begins its output.
pub fn calls_print_reports()
    ensures inputs { InputsAreReported }
    ensures inputs_begun { InputsAreBegun }
    ensures texts { TextsAreReported }
    ensures texts_begun { TextsAreBegun }
{}
