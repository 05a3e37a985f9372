// The worked pairs of RULES 10.1 in one table, proved by one statement.
// The table is specs/Table.antt, the statement proofs/Pairs.antt. There is no code here.
#![tactic(auto)]
