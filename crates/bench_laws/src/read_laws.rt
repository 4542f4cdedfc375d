// What edits and queries are told of reads that failed, as contracts of calls that do nothing.
ghost use Rattle.bench_laws.specs.ReadLaws.{FirstRefusalsTellOfNoRead, AnswersTellOfNoRead, EditsInMemoryReadAll, QueriesInMemoryReadAll, RefusedEditsChangeNothing};

/// Neither the first refusal of an edit nor the answer to a query is E14 or E15: these come of
/// reads alone, never of what the file holds.
pub fn rules_tell_of_no_read()
    ensures edits { FirstRefusalsTellOfNoRead }
    ensures queries { AnswersTellOfNoRead }
{}

/// Where the loaded bytes are in memory nothing is E14 or E15: an edit is done, or refused for what
/// it meets or for want of memory; a query is replied with its answer, or with want of memory.
pub fn memory_reads_all()
    ensures edits { EditsInMemoryReadAll }
    ensures queries { QueriesInMemoryReadAll }
{}

/// An edit that is refused changes nothing, where a read failed too.
pub fn refused_edits_change_nothing()
    ensures { RefusedEditsChangeNothing }
{}
