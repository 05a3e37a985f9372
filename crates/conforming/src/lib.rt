// That a command which conforms is carried out to the last item that it announces: of each set, line and cell where it stands, and what the
// public calls make of the whole. RULES 7.3. The definitions are in specs/Items, the laws in proofs/. There is no code here.
#![tactic(auto)]
