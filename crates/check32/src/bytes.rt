// What a byte alone leaves in the check's register (M.2092-1, Annex 2, 1.2.5), for the check of eight bits at a time.
ghost use Rattle.std.specs.Prelude.{◌≡◌};
ghost use Rattle.check32.specs.Working.Bytes.{byte_marks};

// The register, from zero, after each byte below 16, and then after each multiple of 16: a byte leaves what its two halves leave, added.
const MARKS: [u32; 32] = [
    0x00000000, 0x04C11DB7, 0x09823B6E, 0x0D4326D9, 0x130476DC, 0x17C56B6B, 0x1A864DB2, 0x1E475005,
    0x2608EDB8, 0x22C9F00F, 0x2F8AD6D6, 0x2B4BCB61, 0x350C9B64, 0x31CD86D3, 0x3C8EA00A, 0x384FBDBD,
    0x00000000, 0x4C11DB70, 0x9823B6E0, 0xD4326D90, 0x34867077, 0x7897AB07, 0xACA5C697, 0xE0B41DE7,
    0x690CE0EE, 0x251D3B9E, 0xF12F560E, 0xBD3E8D7E, 0x5D8A9099, 0x119B4BE9, 0xC5A92679, 0x89B8FD09,
];

// The table, handed out by a function so that its numbers stand in no other proof.
pub fn marks() -> [u32; 32]
    ensures { result ≡ byte_marks }
{
    MARKS
}
