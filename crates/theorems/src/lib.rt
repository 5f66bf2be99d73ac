// The theorems: what the definitions of the other crates promise together, and the table of bench cases. No code.
// May depend on format, fields, tables, index, states, events, read_names, read_head, read_items, reader, write_names, write_head, write_items and writer.
#![tactic(auto)]
