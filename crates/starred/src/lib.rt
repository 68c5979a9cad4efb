// Document 01's starred sheets, proved of the definitions: the table of cases is specs/Cases.antt, the one proof over it proofs/Starred.antt.
#![tactic(auto)]
