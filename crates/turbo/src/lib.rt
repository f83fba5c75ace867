// The turbo code (M.2092-1, Annex 2, 1.2.4; document 01, "From datagram to block"): what the coded bits of a block are, and their laws. The
// code stands above, in interleaver, encoder and clocks.
