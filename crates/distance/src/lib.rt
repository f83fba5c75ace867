// Laws of the check's distance and of the reader only: definitions stand in specs/, laws in proofs/, and there is no code.
