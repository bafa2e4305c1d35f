//! The constant texts of a page, which tools/pack/page_texts.py makes of web/.

/// A page up to the program's name in its title.
pub const HEAD: &[u8] = b"<!DOCTYPE html>
<html lang=\"en\">
<head>
<meta charset=\"utf-8\">
<title>";

/// What comes between the title and the program's name in the heading.
pub const STYLE: &[u8] = b"</title>
<meta http-equiv=\"Content-Security-Policy\"
content=\"default-src 'none'; script-src 'sha256-kK56N788svfuPMpUb6hLERUnF5YL6h4E2Uv0yZotXrY='; style-src \
'sha256-UC4owh912rDLDFrKiE6L/opz/HO7yZepSQpdc0zUesc='; base-uri 'none';
form-action 'none'\">
<meta name=\"viewport\" content=\"width=device-width, initial-scale=1\">
<meta name=\"color-scheme\" content=\"light dark\">
<style>
:root { --zoom: 1; }
body {
  margin: 0; background: Canvas; color: CanvasText; font-family: system-ui, sans-serif;
  -webkit-text-size-adjust: 100%; text-size-adjust: 100%;
}
main { max-width: 60rem; margin: 0 auto; padding: 0.5rem; }
h1 { margin: 0 0 0.5rem; font-size: 1.1rem; }
button, input, select { padding: 0.2rem 0.5rem; font: inherit; }
button:focus-visible, input:focus-visible, select:focus-visible { outline: 2px solid; outline-offset: 1px; }
[role=\"tablist\"] { display: flex; margin-bottom: 0.5rem; border-bottom: 1px solid GrayText; }
[role=\"tab\"] { border: 0; border-bottom: 3px solid transparent; background: none; color: inherit; }
[role=\"tab\"][aria-selected=\"true\"] { border-bottom-color: #7b79f5; font-weight: bold; }
[aria-pressed=\"true\"] { background: Highlight; color: HighlightText; }
[hidden] { display: none !important; }

#screen-panel { overflow: auto; }
#screen {
  --paper: #2e2c9b;
  width: max-content; margin: 0 auto; border: 0.75em solid #7b79f5; background: var(--paper); cursor: text;
  font-family: \"DejaVu Sans Mono\", \"Cascadia Mono\", Menlo, Consolas, monospace;
  font-size: calc(min((100vw - 1rem) / 25.5, max(12px, (100vh - 17rem) / 26.5)) * var(--zoom));
}
#screen div { display: flex; height: 1em; line-height: 1em; }
#screen span { width: 0.6em; height: 1em; overflow: hidden; text-align: center; white-space: pre; color: var(--ink); }
#screen .reversed { background: var(--ink); color: var(--paper); }
#screen.waits .cursor { animation: blink 1s steps(1) infinite; }
@keyframes blink { 50% { background: var(--ink); color: var(--paper); } }
@media (prefers-reduced-motion: reduce) {
  #screen.waits .cursor { animation: none; background: var(--ink); color: var(--paper); }
}
.c0 { --ink: #000000; } .c1 { --ink: #ffffff; } .c2 { --ink: #813338; } .c3 { --ink: #75cec8; }
.c4 { --ink: #8e3c97; } .c5 { --ink: #56ac4d; } .c6 { --ink: #2e2c9b; } .c7 { --ink: #edf171; }
.c8 { --ink: #8e5029; } .c9 { --ink: #553800; } .c10 { --ink: #c46c71; } .c11 { --ink: #4a4a4a; }
.c12 { --ink: #7b7b7b; } .c13 { --ink: #a9ff9f; } .c14 { --ink: #7b79f5; } .c15 { --ink: #b2b2b2; }

#log { position: absolute; width: 1px; height: 1px; overflow: hidden; clip-path: inset(50%); white-space: pre; }
#state { min-height: 1.2em; margin: 0.4rem 0; text-align: center; }
#typing { display: flex; gap: 0.5rem; max-width: 40rem; margin: 0 auto 0.5rem; }
#line { flex: 1; min-width: 0; font-family: monospace, monospace; text-transform: uppercase; }
#line::placeholder { text-transform: none; }
.controls { display: flex; flex-wrap: wrap; gap: 0.5rem; align-items: center; justify-content: center; }
.controls { margin-bottom: 0.5rem; }
#keys { width: 16rem; max-width: 100%; box-sizing: border-box; font-family: monospace, monospace; }

#listing-panel, #profile-panel { max-height: calc(100vh - 17rem); min-height: 12rem; overflow: auto; }
#lines { margin: 0; padding: 0; list-style: none; font-family: monospace, monospace; }
#lines li { white-space: pre-wrap; overflow-wrap: anywhere; }
#lines li { padding: 0.1em 0.5em; }
#lines .runs { background: Highlight; color: HighlightText; }
table { border-collapse: collapse; font-variant-numeric: tabular-nums; }
code { font-family: monospace, monospace; }
caption { padding-bottom: 0.5em; text-align: left; }
th, td { padding: 0.1em 0.7em; text-align: right; vertical-align: baseline; }
.source { text-align: left; font-family: monospace, monospace; white-space: pre; }
tr.runs { background: Highlight; color: HighlightText; }
</style>
</head>
<body>
<main>
<h1>";

/// What comes between the heading and the seed.
pub const MIDDLE: &[u8] = b"</h1>
<data id=\"seed\" value=\"";

/// What comes between the seed and the bytes of the PRG file.
pub const PROGRAM: &[u8] = b"\"></data>
<div id=\"tabs\" role=\"tablist\" aria-label=\"What is shown\">
<button type=\"button\" role=\"tab\" id=\"screen-tab\"
aria-controls=\"screen-panel\" aria-selected=\"true\">Screen</button>
<button type=\"button\" role=\"tab\" id=\"listing-tab\"
aria-controls=\"listing-panel\" aria-selected=\"false\" tabindex=\"-1\">Listing</button>
<button type=\"button\" role=\"tab\" id=\"profile-tab\"
aria-controls=\"profile-panel\" aria-selected=\"false\" tabindex=\"-1\">Profile</button>
</div>
<noscript><p>The program runs by a script, and this browser runs none.</p></noscript>
<pre id=\"program\" hidden>";

/// What comes between these bytes and the characters of the screen.
pub const CHARACTERS: &[u8] = b"</pre>
<pre id=\"characters\" hidden>";

/// What comes between the characters and the rows of the source's lines.
pub const LINES: &[u8] = b"</pre>
<section role=\"tabpanel\" id=\"listing-panel\" aria-labelledby=\"listing-tab\" tabindex=\"0\" hidden>
<ol id=\"lines\">
";

/// What comes after the rows, with the script.
pub const FOOT: &[u8] = b"</ol>
</section>
<section role=\"tabpanel\" id=\"profile-panel\" aria-labelledby=\"profile-tab\" tabindex=\"0\" hidden>
<table>
<caption>What the run took so far. A service of the ROM counts as 6 cycles.</caption>
<thead><tr><th scope=\"col\">line</th><th scope=\"col\">times</th><th scope=\"col\">cycles</th>
<th scope=\"col\">share</th><th scope=\"col\" class=\"source\">statement</th></tr></thead>
<tbody id=\"figures\"></tbody>
</table>
</section>
<section role=\"tabpanel\" id=\"screen-panel\" aria-labelledby=\"screen-tab\">
<div id=\"screen\" aria-hidden=\"true\"></div>
</section>
<div id=\"log\" role=\"log\" aria-live=\"polite\" aria-label=\"What the program sends\"></div>
<p id=\"state\" role=\"status\"></p>
<form id=\"typing\">
<input id=\"line\" aria-label=\"What you type\" placeholder=\"type here\" enterkeyhint=\"send\" autocomplete=\"off\"
autocapitalize=\"none\" spellcheck=\"false\">
<button>RETURN</button>
<button type=\"button\" id=\"stop\" aria-pressed=\"false\" title=\"the Escape key\">RUN/STOP</button>
</form>
<div class=\"controls\">
<button type=\"button\" id=\"restart\">Restart</button>
<button type=\"button\" id=\"reseed\" title=\"restart with a new seed\">New seed</button>
<label>Speed <select id=\"speed\">
<option value=\"pal\">a PAL machine's</option><option value=\"most\">as fast as it goes</option></select></label>
<label>Surroundings <select id=\"surroundings\">
<option value=\"light dark\">the system's</option><option value=\"light\">light</option><option \
value=\"dark\">dark</option>
</select></label>
<button type=\"button\" id=\"smaller\">Smaller</button>
<button type=\"button\" id=\"larger\">Larger</button>
</div>
<form id=\"replaying\" class=\"controls\">
<label>What was typed, as words for <code>tbc run</code> <input id=\"keys\" autocomplete=\"off\" spellcheck=\"false\"
pattern=\"(.* )?(--(seed +\\d+|keys +([0-9A-Fa-f]{2})+) *)*\" title=\"--seed N --keys HEX\"></label>
<button type=\"button\" id=\"copy\">Copy</button>
<button>Replay</button>
</form>
</main>
<script type=\"module\">
// The machine of docs/MACHINE.md, written from that page alone: the processor with its documented instructions and
// their cycles, the map of memory with its refusals, the three services, and the end. What plays the ROM is outside:
// each call of `go` does one instruction or one whole service.

export const CYCLES_A_SECOND = 985248; // of a PAL machine

const CHRIN = 0xffcf;
const CHROUT = 0xffd2;
const GETIN = 0xffe4;
const SERVICE_CYCLES = 6;
const STACK = 0x0100;
const START_S = 0xf0;
const RETURN_WORD = 0xa0ff; // lies on the stack at the start
const RETURN_ADDRESS = 0xa100;
const RETURN_S = 0xf2;

// The ranges of addresses that a program may read and write.
const OPEN_RANGES = [[0x0002, 0x9fff], [0xc000, 0xcfff]];

const OPEN = new Uint8Array(0x10000);
for (const [first, last] of OPEN_RANGES) OPEN.fill(1, first, last + 1);

export const isOpen = (address) => OPEN[address] === 1;

const hexadecimal = (value) => value.toString(16).toUpperCase().padStart(4, \"0\");

// Why an instruction can't be done. It is thrown before the instruction has changed anything.
class Refusal extends Error {}

// What a quiet ROM leaves in the registers and writes in a service: nothing.
const QUIET = { registers: {}, writes: [] };

export class Machine {
  // `program` is the bytes of a PRG file; `send` is called with each byte that the program sends.
  constructor(program, send = () => {}) {
    const load = word(program[0], program[1]);
    this.memory = new Uint8Array(0x10000);
    this.memory.set(program.subarray(2), load);
    this.memory[STACK + START_S + 1] = RETURN_WORD & 0xff;
    this.memory[STACK + START_S + 2] = RETURN_WORD >> 8;
    this.pc = load === 0x0801 ? 0x080d : load;
    this.a = this.x = this.y = 0;
    this.s = START_S;
    this.n = this.v = this.d = this.i = this.z = this.c = 0;
    this.cycles = 0;
    this.keys = []; // the keyboard's text
    this.keysTaken = 0;
    this.answers = []; // of GETIN
    this.answersTaken = 0;
    this.wrong = null; // what went wrong, and where
    this.send = send;
  }

  get status() {
    if (this.pc === RETURN_ADDRESS && this.s === RETURN_S && this.d === 0) return \"returned\";
    if (this.wrong !== null) return \"wrong\";
    return this.pc === CHRIN && this.keysTaken === this.keys.length ? \"waits\" : \"running\";
  }

  // Adds bytes to the keyboard's text.
  type(bytes) {
    for (const byte of bytes) this.keys.push(byte);
  }

  // One instruction, or one whole service with its return, in which the ROM may change registers and memory. Answers
  // whether anything was done.
  go(rom = QUIET) {
    if (this.status !== \"running\") return false;
    if (this.pc >= CHRIN && this.service(rom)) return true;
    try {
      this.instruction();
      return true;
    } catch (refusal) {
      if (!(refusal instanceof Refusal)) throw refusal;
      this.wrong = `${refusal.message} at ${hexadecimal(this.pc)}`;
      return false;
    }
  }

  // The ROM rewrites bytes of memory between two instructions.
  interrupt(writes) {
    if (this.status === \"returned\" || this.status === \"wrong\") return;
    for (const [address, byte] of writes) this.memory[address] = byte;
  }

  // The service at the program counter, if there is one.
  service(rom) {
    const a = this.a;
    switch (this.pc) {
      case CHROUT:
        this.send(a);
        Object.assign(this, rom.registers);
        break;
      case CHRIN:
        Object.assign(this, rom.registers);
        this.a = this.keys[this.keysTaken++];
        break;
      case GETIN:
        Object.assign(this, rom.registers);
        this.a = this.answersTaken < this.answers.length ? this.answers[this.answersTaken++] : 0;
        break;
      default:
        return false;
    }
    for (const [address, byte] of rom.writes) this.memory[address] = byte;
    this.pc = (this.pullWord() + 1) & 0xffff;
    this.cycles += SERVICE_CYCLES;
    return true;
  }

  instruction() {
    const opcode = this.read(this.pc);
    const it = INSTRUCTIONS[opcode];
    if (it === undefined) throw new Refusal(opcode === 0 ? \"brk\" : \"unknown opcode\");
    this.next = (this.pc + it.length) & 0xffff;
    this.extra = 0; // cycles beyond the base
    const address = it.mode(this);
    if (it.isStoring) this.extra = 0; // it always takes the time for a crossed page
    it.operation(this, address);
    this.pc = this.next;
    this.cycles += it.cycles + this.extra;
  }

  read(address) {
    if (OPEN[address] === 0) throw new Refusal(`closed address ${hexadecimal(address)}`);
    return this.memory[address];
  }

  write(address, byte) {
    if (OPEN[address] === 0) throw new Refusal(`closed address ${hexadecimal(address)}`);
    this.memory[address] = byte;
  }

  // A byte behind the opcode.
  operand(place) {
    return this.read((this.pc + place) & 0xffff);
  }

  operandWord() {
    return word(this.operand(1), this.operand(2));
  }

  // The word at a place of the zero page, whose high byte is in the zero page too.
  pointer(place) {
    return word(this.read(place), this.read((place + 1) & 0xff));
  }

  indexed(base, index) {
    const address = (base + index) & 0xffff;
    this.extra = isSamePage(base, address) ? 0 : 1;
    return address;
  }

  push(byte) {
    this.memory[STACK + this.s] = byte;
    this.s = (this.s - 1) & 0xff;
  }

  pull() {
    this.s = (this.s + 1) & 0xff;
    return this.memory[STACK + this.s];
  }

  pullWord() {
    const low = this.pull();
    return word(low, this.pull());
  }

  // The status register without bits 4 and 5.
  get flags() {
    return (this.n << 7) | (this.v << 6) | (this.d << 3) | (this.i << 2) | (this.z << 1) | this.c;
  }

  set flags(byte) {
    this.n = byte >> 7;
    this.v = (byte >> 6) & 1;
    this.d = (byte >> 3) & 1;
    this.i = (byte >> 2) & 1;
    this.z = (byte >> 1) & 1;
    this.c = byte & 1;
  }

  // Sets N and Z by a byte, and answers it.
  nz(byte) {
    this.n = byte >> 7;
    this.z = byte === 0 ? 1 : 0;
    return byte;
  }

  compare(register, byte) {
    this.nz((register - byte) & 0xff);
    this.c = register >= byte ? 1 : 0;
  }

  add(byte) {
    const carry = this.c;
    const sum = this.a + byte + carry;
    const decimal = this.d === 1 ? digits(this.a) + digits(byte) + carry : 0; // refused before anything changes
    this.nz(sum & 0xff);
    this.v = (~(this.a ^ byte) & (this.a ^ sum) & 0x80) >> 7;
    this.c = this.d === 1 ? Number(decimal > 99) : sum >> 8;
    this.a = this.d === 1 ? twoDigits(decimal % 100) : sum & 0xff;
  }

  subtract(byte) {
    const borrow = 1 - this.c;
    const difference = this.a - byte - borrow;
    const decimal = this.d === 1 ? digits(this.a) - digits(byte) - borrow : 0;
    this.nz(difference & 0xff);
    this.v = ((this.a ^ byte) & (this.a ^ difference) & 0x80) >> 7;
    this.c = this.d === 1 ? Number(decimal >= 0) : Number(difference >= 0);
    this.a = this.d === 1 ? twoDigits((decimal + 100) % 100) : difference & 0xff;
  }

  branch(isTaken, target) {
    if (!isTaken) return;
    this.extra = isSamePage(this.next, target) ? 1 : 2;
    this.next = target;
  }
}

function word(low, high) {
  return low | (high << 8);
}

function isSamePage(one, other) {
  return one >> 8 === other >> 8;
}

// The number that two decimal digits write.
function digits(byte) {
  const high = byte >> 4;
  const low = byte & 0x0f;
  if (high > 9 || low > 9) throw new Refusal(\"bad decimal\");
  return 10 * high + low;
}

function twoDigits(number) {
  return (Math.floor(number / 10) << 4) | (number % 10);
}

// Each mode: how many bytes an instruction takes in it, and what it leads to. That is the address of the datum, but for
// a branch and a jump the address to go to.
const MODES = {
  \"-\": [1, () => 0],
  \"A\": [1, () => 0],
  \"imm\": [2, (machine) => (machine.pc + 1) & 0xffff],
  \"zp\": [2, (machine) => machine.operand(1)],
  \"zp,X\": [2, (machine) => (machine.operand(1) + machine.x) & 0xff],
  \"zp,Y\": [2, (machine) => (machine.operand(1) + machine.y) & 0xff],
  \"abs\": [3, (machine) => machine.operandWord()],
  \"abs,X\": [3, (machine) => machine.indexed(machine.operandWord(), machine.x)],
  \"abs,Y\": [3, (machine) => machine.indexed(machine.operandWord(), machine.y)],
  \"(zp,X)\": [2, (machine) => machine.pointer((machine.operand(1) + machine.x) & 0xff)],
  \"(zp),Y\": [2, (machine) => machine.indexed(machine.pointer(machine.operand(1)), machine.y)],
  \"(abs)\": [3, (machine) => {
    const at = machine.operandWord();
    return word(machine.read(at), machine.read((at & 0xff00) | ((at + 1) & 0xff))); // of one page
  }],
  \"rel\": [2, (machine) => {
    const offset = machine.operand(1);
    return (machine.next + (offset < 0x80 ? offset : offset - 0x100)) & 0xffff;
  }],
};

// What is done with the datum's address, of instructions that read it.
const READING = {
  ADC: (machine, at) => machine.add(machine.read(at)),
  SBC: (machine, at) => machine.subtract(machine.read(at)),
  AND: (machine, at) => { machine.a = machine.nz(machine.a & machine.read(at)); },
  EOR: (machine, at) => { machine.a = machine.nz(machine.a ^ machine.read(at)); },
  ORA: (machine, at) => { machine.a = machine.nz(machine.a | machine.read(at)); },
  CMP: (machine, at) => machine.compare(machine.a, machine.read(at)),
  CPX: (machine, at) => machine.compare(machine.x, machine.read(at)),
  CPY: (machine, at) => machine.compare(machine.y, machine.read(at)),
  LDA: (machine, at) => { machine.a = machine.nz(machine.read(at)); },
  LDX: (machine, at) => { machine.x = machine.nz(machine.read(at)); },
  LDY: (machine, at) => { machine.y = machine.nz(machine.read(at)); },
  BIT: (machine, at) => {
    const byte = machine.read(at);
    machine.n = byte >> 7;
    machine.v = (byte >> 6) & 1;
    machine.z = (machine.a & byte) === 0 ? 1 : 0;
  },
};

const STORING = {
  STA: (machine, at) => machine.write(at, machine.a),
  STX: (machine, at) => machine.write(at, machine.x),
  STY: (machine, at) => machine.write(at, machine.y),
};

// What a byte becomes, with its flags, of instructions that change it in place.
const CHANGES = {
  ASL: (machine, byte) => {
    machine.c = byte >> 7;
    return machine.nz((byte << 1) & 0xff);
  },
  LSR: (machine, byte) => {
    machine.c = byte & 1;
    return machine.nz(byte >> 1);
  },
  ROL: (machine, byte) => {
    const carry = machine.c;
    machine.c = byte >> 7;
    return machine.nz(((byte << 1) & 0xff) | carry);
  },
  ROR: (machine, byte) => {
    const carry = machine.c;
    machine.c = byte & 1;
    return machine.nz((byte >> 1) | (carry << 7));
  },
  INC: (machine, byte) => machine.nz((byte + 1) & 0xff),
  DEC: (machine, byte) => machine.nz((byte - 1) & 0xff),
};

// All others.
const OTHERS = {
  NOP: () => {},
  CLC: (machine) => { machine.c = 0; },
  SEC: (machine) => { machine.c = 1; },
  CLI: (machine) => { machine.i = 0; },
  SEI: (machine) => { machine.i = 1; },
  CLD: (machine) => { machine.d = 0; },
  SED: (machine) => { machine.d = 1; },
  CLV: (machine) => { machine.v = 0; },
  TAX: (machine) => { machine.x = machine.nz(machine.a); },
  TAY: (machine) => { machine.y = machine.nz(machine.a); },
  TXA: (machine) => { machine.a = machine.nz(machine.x); },
  TYA: (machine) => { machine.a = machine.nz(machine.y); },
  TSX: (machine) => { machine.x = machine.nz(machine.s); },
  TXS: (machine) => { machine.s = machine.x; },
  INX: (machine) => { machine.x = machine.nz((machine.x + 1) & 0xff); },
  INY: (machine) => { machine.y = machine.nz((machine.y + 1) & 0xff); },
  DEX: (machine) => { machine.x = machine.nz((machine.x - 1) & 0xff); },
  DEY: (machine) => { machine.y = machine.nz((machine.y - 1) & 0xff); },
  PHA: (machine) => machine.push(machine.a),
  PHP: (machine) => machine.push(machine.flags | 0x30),
  PLA: (machine) => { machine.a = machine.nz(machine.pull()); },
  PLP: (machine) => { machine.flags = machine.pull(); },
  JMP: (machine, to) => { machine.next = to; },
  JSR: (machine, to) => {
    const last = (machine.next - 1) & 0xffff;
    machine.push(last >> 8);
    machine.push(last & 0xff);
    machine.next = to;
  },
  RTS: (machine) => { machine.next = (machine.pullWord() + 1) & 0xffff; },
  RTI: (machine) => {
    machine.flags = machine.pull();
    machine.next = machine.pullWord();
  },
  BPL: (machine, to) => machine.branch(machine.n === 0, to),
  BMI: (machine, to) => machine.branch(machine.n === 1, to),
  BVC: (machine, to) => machine.branch(machine.v === 0, to),
  BVS: (machine, to) => machine.branch(machine.v === 1, to),
  BCC: (machine, to) => machine.branch(machine.c === 0, to),
  BCS: (machine, to) => machine.branch(machine.c === 1, to),
  BNE: (machine, to) => machine.branch(machine.z === 0, to),
  BEQ: (machine, to) => machine.branch(machine.z === 1, to),
};

// The cycles by kind and mode. An index adds one where it leads into another page, but for STORING and CHANGES.
const READING_CYCLES = {
  \"imm\": 2, \"zp\": 3, \"zp,X\": 4, \"zp,Y\": 4, \"abs\": 4, \"abs,X\": 4, \"abs,Y\": 4, \"(zp,X)\": 6, \"(zp),Y\": 5,
};
const STORING_CYCLES = { \"zp\": 3, \"zp,X\": 4, \"zp,Y\": 4, \"abs\": 4, \"abs,X\": 5, \"abs,Y\": 5, \
\"(zp,X)\": 6, \"(zp),Y\": 6 };
const CHANGES_CYCLES = { \"A\": 2, \"zp\": 5, \"zp,X\": 6, \"abs\": 6, \"abs,X\": 7 };
const JUMP_CYCLES = { \"abs\": 3, \"(abs)\": 5 };
const OTHER_CYCLES = { JSR: 6, RTS: 6, RTI: 6, PHA: 3, PHP: 3, PLA: 4, PLP: 4 };

// The documented opcodes but BRK: a mnemonic, and then each mode with its opcode.
const OPCODES = `
ADC imm 69 zp 65 zp,X 75 abs 6D abs,X 7D abs,Y 79 (zp,X) 61 (zp),Y 71
AND imm 29 zp 25 zp,X 35 abs 2D abs,X 3D abs,Y 39 (zp,X) 21 (zp),Y 31
CMP imm C9 zp C5 zp,X D5 abs CD abs,X DD abs,Y D9 (zp,X) C1 (zp),Y D1
EOR imm 49 zp 45 zp,X 55 abs 4D abs,X 5D abs,Y 59 (zp,X) 41 (zp),Y 51
LDA imm A9 zp A5 zp,X B5 abs AD abs,X BD abs,Y B9 (zp,X) A1 (zp),Y B1
ORA imm 09 zp 05 zp,X 15 abs 0D abs,X 1D abs,Y 19 (zp,X) 01 (zp),Y 11
SBC imm E9 zp E5 zp,X F5 abs ED abs,X FD abs,Y F9 (zp,X) E1 (zp),Y F1
STA zp 85 zp,X 95 abs 8D abs,X 9D abs,Y 99 (zp,X) 81 (zp),Y 91
ASL A 0A zp 06 zp,X 16 abs 0E abs,X 1E
LSR A 4A zp 46 zp,X 56 abs 4E abs,X 5E
ROL A 2A zp 26 zp,X 36 abs 2E abs,X 3E
ROR A 6A zp 66 zp,X 76 abs 6E abs,X 7E
INC zp E6 zp,X F6 abs EE abs,X FE
DEC zp C6 zp,X D6 abs CE abs,X DE
LDX imm A2 zp A6 zp,Y B6 abs AE abs,Y BE
LDY imm A0 zp A4 zp,X B4 abs AC abs,X BC
STX zp 86 zp,Y 96 abs 8E
STY zp 84 zp,X 94 abs 8C
CPX imm E0 zp E4 abs EC
CPY imm C0 zp C4 abs CC
BIT zp 24 abs 2C
JMP abs 4C (abs) 6C
JSR abs 20
BPL rel 10
BMI rel 30
BVC rel 50
BVS rel 70
BCC rel 90
BCS rel B0
BNE rel D0
BEQ rel F0
RTI - 40
RTS - 60
NOP - EA
CLC - 18
SEC - 38
CLI - 58
SEI - 78
CLV - B8
CLD - D8
SED - F8
PHP - 08
PLP - 28
PHA - 48
PLA - 68
TAX - AA
TXA - 8A
TAY - A8
TYA - 98
TSX - BA
TXS - 9A
INX - E8
DEX - CA
INY - C8
DEY - 88`;

// What an instruction of this name does in this mode, and how many cycles that takes without its extra ones.
function meaning(name, mode) {
  if (name in READING) return [READING[name], READING_CYCLES[mode]];
  if (name in STORING) return [STORING[name], STORING_CYCLES[mode]];
  if (name in CHANGES) {
    const changed = CHANGES[name];
    const inPlace = (machine, at) => {
      machine.read(at); // refused before the flags change
      machine.write(at, changed(machine, machine.memory[at]));
    };
    const inA = (machine) => { machine.a = changed(machine, machine.a); };
    return [mode === \"A\" ? inA : inPlace, CHANGES_CYCLES[mode]];
  }
  return [OTHERS[name], name === \"JMP\" ? JUMP_CYCLES[mode] : OTHER_CYCLES[name] ?? 2];
}

// The instruction of each opcode; undocumented ones and BRK have none.
const INSTRUCTIONS = new Array(256);
for (const row of OPCODES.trim().split(\"\\n\")) {
  const [name, ...those] = row.split(\" \");
  for (let k = 0; k < those.length; k += 2) {
    const [length, mode] = MODES[those[k]];
    const [operation, cycles] = meaning(name, those[k]);
    const isStoring = name in STORING || name in CHANGES;
    INSTRUCTIONS[parseInt(those[k + 1], 16)] = { length, mode, operation, cycles, isStoring };
  }
}

// The screen of docs/SCREEN.md: what the bytes that a program sends do to it. Codes from 128 on are reversed.

export const COLUMNS = 40;
export const ROWS = 25;
export const RETURN = 13;

const LIGHT_BLUE = 14;
const BLANK = 32;
const QUOTE = 34;
const REVERSED = 128;
const LAST = COLUMNS - 1;
const [SHIFTED_RETURN, DELETE, INSERT] = [141, 20, 148];

// The colours in the machine's order, by the byte that chooses each.
const COLOURS = [144, 5, 28, 159, 156, 30, 31, 158, 129, 149, 150, 151, 152, 153, 154, 155];

// The screen code of a byte that shows a character.
export function codeOf(byte) {
  if (byte === 255) return 94;
  if (byte >= 192) return byte - 128;
  if (byte >= 160) return byte - 64;
  if (byte >= 96) return byte - 32;
  return byte >= 64 ? byte - 64 : byte;
}

export const isShown = (byte) => (byte & 0x7f) >= 32;

export class Screen {
  constructor() {
    this.colour = LIGHT_BLUE;
    this.isReversed = false;
    this.isQuoted = false;
    this.room = 0; // how many bytes INST still makes room for
    this.hasLetters = false; // the character set with small letters
    this.clear();
  }

  // A screen that shows the same.
  copy() {
    const rows = this.rows.map((row) => ({ ...row, codes: row.codes.slice(), colours: row.colours.slice() }));
    return Object.assign(Object.create(Screen.prototype), this, { rows });
  }

  print(byte) {
    if (byte === RETURN || byte === SHIFTED_RETURN) this.return();
    else if (isShown(byte)) this.character(byte);
    else if (this.showsControls(byte)) this.show(REVERSED | (byte & 0x1f) | (byte >= 128 ? 64 : 0));
    else this.control(byte);
    if (this.room > 0) this.isQuoted = false;
  }

  // Whether a control byte is shown as a reversed character.
  showsControls(byte) {
    if (byte === DELETE) return this.room > 0;
    if (byte === INSERT) return this.isQuoted;
    return this.isQuoted || this.room > 0;
  }

  character(byte) {
    if (byte === QUOTE) this.isQuoted = !this.isQuoted;
    this.show(codeOf(byte) | (this.isReversed ? REVERSED : 0));
  }

  control(byte) {
    const colour = COLOURS.indexOf(byte);
    if (colour >= 0) this.colour = colour;
    else CONTROLS[byte]?.(this);
  }

  // A row of blanks. `goesOn` tells whether it is the second one of a line.
  blankRow(goesOn = false) {
    return { codes: new Array(COLUMNS).fill(BLANK), colours: new Array(COLUMNS).fill(this.colour), goesOn };
  }

  clear() {
    this.rows = Array.from({ length: ROWS }, () => this.blankRow());
    this.home();
  }

  home() {
    this.row = this.column = 0;
  }

  // The first and the last row of the cursor's line.
  get first() {
    return this.rows[this.row].goesOn ? this.row - 1 : this.row;
  }

  get last() {
    return this.rows[this.row + 1]?.goesOn ? this.row + 1 : this.row;
  }

  // Scrolls by the line at the top.
  scroll() {
    const count = this.rows[1].goesOn ? 2 : 1;
    this.rows.splice(0, count);
    for (let k = 0; k < count; k++) this.rows.push(this.blankRow());
    this.row -= count;
  }

  // Gives the cursor's line of one row a second one.
  lengthen() {
    if (this.row === ROWS - 1) this.scroll();
    this.rows.splice(this.row + 1, 0, this.blankRow(true));
    this.rows.length = ROWS;
  }

  // To the line below, in the same column.
  nextLine() {
    if (this.last === ROWS - 1) {
      this.row = this.last;
      this.scroll();
      this.row = this.last + 1;
    } else {
      this.row = this.last + 1;
    }
  }

  return() {
    this.isReversed = this.isQuoted = false;
    this.room = 0;
    this.column = 0;
    this.nextLine();
  }

  show(code) {
    if (this.room > 0) this.room--;
    this.put(this.row, this.column, code, this.colour);
    if (this.column < LAST) {
      this.column++;
      return;
    }
    if (this.first === this.last) this.lengthen();
    this.right();
  }

  put(row, column, code, colour) {
    this.rows[row].codes[column] = code;
    this.rows[row].colours[column] = colour;
  }

  right() {
    if (this.column < LAST) {
      this.column++;
      return;
    }
    this.column = 0;
    if (this.row < this.last) this.row++;
    else this.nextLine();
  }

  // One place to the left, if there is one.
  left() {
    if (this.row === 0 && this.column === 0) return false;
    if (this.column > 0) {
      this.column--;
    } else {
      this.row--;
      this.column = LAST;
    }
    return true;
  }

  down() {
    if (this.row < this.last) this.row++;
    else this.nextLine();
  }

  up() {
    if (this.row > 0) this.row--;
  }

  // The cells of the cursor's line from the cursor on, each a row and a column.
  restOfLine() {
    const cells = [];
    for (let row = this.row, column = this.column; row <= this.last; row++, column = 0) {
      for (; column < COLUMNS; column++) cells.push([row, column]);
    }
    return cells;
  }

  move([row, column], [toRow, toColumn]) {
    this.put(toRow, toColumn, this.rows[row].codes[column], this.rows[row].colours[column]);
  }

  delete() {
    if (!this.left()) return;
    const cells = this.restOfLine();
    for (let k = 1; k < cells.length; k++) this.move(cells[k], cells[k - 1]);
    this.put(...cells.at(-1), BLANK, this.colour);
  }

  insert() {
    const isAtEnd = this.row === this.last && this.column === LAST;
    if (isAtEnd || this.rows[this.last].codes[LAST] !== BLANK) {
      if (this.first !== this.last) return;
      this.lengthen();
    }
    const cells = this.restOfLine();
    for (let k = cells.length - 1; k > 0; k--) this.move(cells[k - 1], cells[k]);
    this.put(this.row, this.column, BLANK, this.colour);
    this.room = Math.min(this.room + 1, 255);
  }
}

const CONTROLS = {
  14: (screen) => { screen.hasLetters = true; },
  17: (screen) => screen.down(),
  18: (screen) => { screen.isReversed = true; },
  19: (screen) => screen.home(),
  [DELETE]: (screen) => screen.delete(),
  29: (screen) => screen.right(),
  142: (screen) => { screen.hasLetters = false; },
  145: (screen) => screen.up(),
  146: (screen) => { screen.isReversed = false; },
  147: (screen) => screen.clear(),
  [INSERT]: (screen) => screen.insert(),
  157: (screen) => screen.left(),
};

// What happens in the page: the program runs, and what it does is shown.

const FIRST_LINE = 0x0c00; // where the code of a compiled program's lines begins
const [SEEDED, SEED] = [0xc036, 0xc038]; // where such a program keeps the state of RND
const STOP_KEY = 3;
const LINE_BREAKS = [RETURN, 141, 19, 147];
const MOST_HEARD = 100; // lines that the log gets at once, and twice as many stay in it
const LONGEST_FRAME = 100; // milliseconds that one frame may make up for
const FAST_FRAME = 12; // milliseconds that the machine runs in each frame where it is as fast as it goes
const STEPS_BETWEEN_LOOKS = 5000; // at the clock
const FIGURES_EVERY = 250; // milliseconds
const A_ZOOM = 1.2;

const byId = (id) => document.getElementById(id);

function element(name, properties, ...children) {
  const made = Object.assign(document.createElement(name), properties);
  made.append(...children);
  return made;
}

function bytesOfDigits(digits) {
  return Uint8Array.from(digits.match(/../g) ?? [], (pair) => parseInt(pair, 16));
}

function digitsOfBytes(bytes) {
  return bytes.map((byte) => byte.toString(16).padStart(2, \"0\")).join(\"\");
}

// The bytes of what is typed: small letters are capitals, and what is not ASCII is left out.
function bytesTyped(text) {
  const codes = Array.from(text, (character) => character.codePointAt(0)).filter((code) => code >= 32 && code < 127);
  return codes.map((code) => (code >= 97 && code <= 122 ? code - 32 : code));
}

const PROGRAM = bytesOfDigits(byId(\"program\").textContent.replace(/\\s/g, \"\"));
const CHARACTERS = Array.from(byId(\"characters\").textContent);
const OWN_SEED = byId(\"seed\").value; // no digits where there is no source
const LINES = Array.from(byId(\"lines\").children, (row) => ({ row, address: parseInt(row.dataset.at, 16) }));

// By address, the place in LINES plus 1 of the line whose code begins there, or 0.
const LINE_AT = new Uint16Array(0x10000);
LINES.forEach(({ address }, place) => { LINE_AT[address] = place + 1; });

const characterOf = (code, hasLetters) => CHARACTERS[(code & 0x7f) + (hasLetters ? 128 : 0)];

// Shows a screen in an element: a row in each div, a character in each span, whose classes tell its looks.
class Display {
  constructor(place) {
    this.place = place;
    this.cells = [];
    for (let row = 0; row < ROWS; row++) {
      const cells = Array.from({ length: COLUMNS }, () => element(\"span\"));
      place.append(element(\"div\", {}, ...cells));
      this.cells.push(cells.map((cell) => ({ cell, text: \"\", looks: \"\" })));
    }
  }

  draw(screen) {
    screen.rows.forEach(({ codes, colours }, row) => {
      codes.forEach((code, column) => {
        const isCursor = row === screen.row && column === screen.column;
        const looks = `c${colours[column]}${code >= 128 ? \" reversed\" : \"\"}${isCursor ? \" cursor\" : \"\"}`;
        this.show(this.cells[row][column], characterOf(code, screen.hasLetters), looks);
      });
    });
  }

  show(shown, text, looks) {
    if (shown.text !== text) shown.cell.textContent = shown.text = text;
    if (shown.looks !== looks) shown.cell.className = shown.looks = looks;
  }
}

// What is sent, as text for those who hear it. A line is told when it is whole, or when the program waits or ends.
class Log {
  constructor(place) {
    this.place = place;
    place.replaceChildren();
    this.text = \"\";
  }

  add(byte, hasLetters) {
    if (isShown(byte)) this.text += characterOf(codeOf(byte), hasLetters);
    else if (LINE_BREAKS.includes(byte)) this.text += \"\\n\";
  }

  tell(isAll) {
    const end = isAll ? this.text.length : this.text.lastIndexOf(\"\\n\") + 1;
    const lines = this.text.slice(0, end).split(\"\\n\").filter((line) => line !== \"\");
    this.text = this.text.slice(end);
    this.place.append(...lines.slice(-MOST_HEARD).map((line) => element(\"div\", { textContent: line })));
    while (this.place.childElementCount > 2 * MOST_HEARD) this.place.firstChild.remove();
  }
}

// What each line took so far; place 0 is what comes before the first line.
class Profile {
  constructor() {
    this.times = new Array(LINES.length + 1).fill(0);
    this.cycles = new Array(LINES.length + 1).fill(0);
    this.times[0] = 1;
    this.place = 0;
    this.since = 0;
  }

  begin(place, cycles) {
    this.settle(cycles);
    this.place = place;
    this.times[place]++;
  }

  // Counts for the line that runs what it took since.
  settle(cycles) {
    this.cycles[this.place] += cycles - this.since;
    this.since = cycles;
  }
}

// One run of the program, from its start on.
class Run {
  constructor(seed, lines) {
    this.seed = seed;
    this.waiting = lines; // typed lines that no wait has taken yet, each with its return
    this.screen = new Screen();
    this.log = new Log(byId(\"log\"));
    this.profile = new Profile();
    this.machine = new Machine(PROGRAM, (byte) => this.receive(byte));
    this.isSeeded = seed === OWN_SEED;
  }

  receive(byte) {
    this.screen.print(byte);
    this.log.add(byte, this.screen.hasLetters);
  }

  // Does so many instructions at most, up to a cycle. Answers whether it could go on.
  advance(steps, cycle) {
    const { machine } = this;
    for (let k = 0; k < steps && machine.cycles < cycle; k++) {
      const place = LINE_AT[machine.pc];
      if (place > 0) this.begin(place);
      if (!machine.go() && !this.takeLine()) return false;
    }
    return machine.cycles < cycle;
  }

  begin(place) {
    if (!this.isSeeded && this.machine.pc === FIRST_LINE) {
      this.machine.memory.set([this.seed & 0xff, this.seed >> 8], SEED);
      this.machine.memory[SEEDED] = 1;
      this.isSeeded = true;
    }
    this.profile.begin(place, this.machine.cycles);
  }

  // Where the program waits, gives it the next line that was typed. Its return moves no cursor.
  takeLine() {
    if (this.machine.status !== \"waits\" || this.waiting.length === 0) return false;
    const line = this.waiting.shift();
    for (const byte of line) if (byte !== RETURN) this.screen.print(byte);
    this.machine.type(line);
    return true;
  }

  // The STOP key is down until the program has looked at it.
  get isStopDown() {
    return this.machine.answersTaken < this.machine.answers.length;
  }

  stop() {
    if (!this.isStopDown && this.machine.status !== \"returned\") this.machine.answers.push(STOP_KEY);
  }

  // What runs it again.
  get words() {
    const keys = digitsOfBytes(this.machine.keys);
    return [...(this.seed === \"\" ? [] : [\"--seed\", this.seed]), ...(keys === \"\" ? [] : [\"--keys\", \
keys])].join(\" \");
  }

  // What is to be seen: the screen, and on it what is typed while the program waits.
  seen(typed) {
    if (this.machine.status !== \"waits\") return this.screen;
    const screen = this.screen.copy();
    for (const byte of bytesTyped(typed)) screen.print(byte);
    return screen;
  }
}

const display = new Display(byId(\"screen\"));
const keys = byId(\"keys\");
const line = byId(\"line\");
let run;
let before = performance.now();
let figuresAt = 0;

function start(seed, lines = []) {
  run = new Run(seed, lines);
  line.value = \"\";
  focusLine();
}

// Lets the machine run for one frame.
function runFrame(now) {
  const budget = Math.min(now - before, LONGEST_FRAME);
  before = now;
  if (byId(\"speed\").value === \"pal\") {
    run.advance(Infinity, run.machine.cycles + (budget * CYCLES_A_SECOND) / 1000);
    return;
  }
  const end = performance.now() + FAST_FRAME;
  while (run.advance(STEPS_BETWEEN_LOOKS, Infinity) && performance.now() < end);
}

function frame(now) {
  runFrame(now);
  const { status, wrong } = run.machine;
  display.draw(run.seen(line.value));
  byId(\"screen\").classList.toggle(\"waits\", status === \"waits\");
  byId(\"stop\").setAttribute(\"aria-pressed\", run.isStopDown);
  run.log.tell(status !== \"running\");
  const state = { returned: \"The program has ended.\", wrong: `The machine went wrong: ${wrong}` }[status] ?? \"\";
  if (byId(\"state\").textContent !== state) byId(\"state\").textContent = state;
  if (document.activeElement !== keys) keys.value = run.words;
  showListing();
  if (now >= figuresAt) {
    figuresAt = now + FIGURES_EVERY;
    showFigures();
  }
  requestAnimationFrame(frame);
}

// The listing, with the line that runs.
function showListing() {
  if (byId(\"listing-panel\").hidden) return;
  const current = LINES[run.profile.place - 1]?.row;
  if (current?.classList.contains(\"runs\")) return;
  for (const { row } of LINES) row.classList.toggle(\"runs\", row === current);
  current?.scrollIntoView({ block: \"nearest\" });
}

// The rows of the profile: before the first line, the lines, and the sum.
function figureRows() {
  const statements = LINES.map(({ row }) => [row.value, row.textContent.replace(/^\\s*\\d+ ?/, \"\")]);
  return [[\"start\", \"\"], ...statements, [\"sum\", \"\"]].map(([name, statement]) => {
    const cells = [name, \"\", \"\", \"\"].map((textContent) => element(\"td\", { textContent }));
    const row = element(\"tr\", {}, ...cells, element(\"td\", { className: \"source\", textContent: statement }));
    byId(\"figures\").append(row);
    return { row, cells };
  });
}

const FIGURE_ROWS = figureRows();

function showFigures() {
  if (byId(\"profile-panel\").hidden) return;
  const { profile, machine } = run;
  profile.settle(machine.cycles);
  const sum = profile.times.slice(1).reduce((all, times) => all + times, 0);
  const figures = [...profile.times.map((times, place) => [times, profile.cycles[place]]), [sum, machine.cycles]];
  FIGURE_ROWS.forEach(({ row, cells }, place) => {
    const [times, cycles] = figures[place];
    const share = machine.cycles === 0 ? 0 : (100 * cycles) / machine.cycles;
    [times, cycles, `${share.toFixed(1)}%`].forEach((text, k) => { cells[k + 1].textContent = text; });
    row.classList.toggle(\"runs\", place === profile.place);
  });
}

function choose(tab) {
  for (const other of byId(\"tabs\").children) {
    other.setAttribute(\"aria-selected\", other === tab);
    other.tabIndex = other === tab ? 0 : -1;
    byId(other.getAttribute(\"aria-controls\")).hidden = other !== tab;
  }
  figuresAt = 0;
}

// By the arrow keys from tab to tab.
function chooseByKey(event) {
  const step = { ArrowLeft: -1, ArrowRight: 1 }[event.key];
  if (step === undefined) return;
  const tabs = Array.from(byId(\"tabs\").children);
  const tab = tabs[(tabs.indexOf(event.target) + step + tabs.length) % tabs.length];
  choose(tab);
  tab.focus();
}

// Runs it again by the words that `words` gives.
function replay(words) {
  const [, seed = run.seed] = /--seed +(\\d+)/.exec(words) ?? [];
  const [, digits = \"\"] = /--keys +(\\S+)/.exec(words) ?? [];
  const typed = Array.from(bytesOfDigits(digits));
  const lines = [];
  while (typed.length > 0) lines.push(typed.splice(0, typed.indexOf(RETURN) + 1 || typed.length));
  start(OWN_SEED === \"\" ? \"\" : String(seed & 0xffff), lines);
}

function newSeed() {
  return String(1 + (crypto.getRandomValues(new Uint16Array(1))[0] % 0xffff));
}

function zoom(by) {
  const style = document.documentElement.style;
  style.setProperty(\"--zoom\", Number(style.getPropertyValue(\"--zoom\") || 1) * by);
}

function copyKeys() {
  keys.value = run.words;
  keys.select();
  if (navigator.clipboard) navigator.clipboard.writeText(keys.value).catch(() => {});
  else document.execCommand(\"copy\");
}

// Keys that are pressed anywhere go to the line that is typed, but for those that a control takes.
function keyDown(event) {
  const { key, target } = event;
  if (key === \"Escape\") run.stop();
  if (target.matches(\"input, select\") || event.ctrlKey || event.metaKey || event.altKey) return;
  if (target.matches(\"button\") && (key === \" \" || key === \"Enter\")) return;
  if (key === \"Enter\") byId(\"typing\").requestSubmit();
  else if (key.length === 1) line.focus();
}

// On a phone this would bring up its keyboard.
function focusLine() {
  if (!matchMedia(\"(pointer: coarse)\").matches) line.focus();
}

function onSubmit(form, action) {
  byId(form).addEventListener(\"submit\", (event) => {
    event.preventDefault();
    action();
  });
}

function onClick(actions) {
  for (const [id, action] of Object.entries(actions)) byId(id).addEventListener(\"click\", action);
}

document.addEventListener(\"keydown\", keyDown);
byId(\"tabs\").addEventListener(\"keydown\", chooseByKey);
for (const tab of byId(\"tabs\").children) tab.addEventListener(\"click\", () => choose(tab));
onSubmit(\"typing\", () => {
  run.waiting.push([...bytesTyped(line.value), RETURN]);
  line.value = \"\";
});
onSubmit(\"replaying\", () => replay(keys.value));
onClick({
  screen: () => line.focus(),
  stop: () => run.stop(),
  restart: () => start(run.seed),
  reseed: () => start(newSeed()),
  smaller: () => zoom(1 / A_ZOOM),
  larger: () => zoom(A_ZOOM),
  copy: copyKeys,
});
byId(\"surroundings\").addEventListener(\"change\", ({ target }) => {
  document.documentElement.style.colorScheme = target.value;
});
byId(\"tabs\").hidden = LINES.length === 0;
byId(\"reseed\").hidden = OWN_SEED === \"\";
start(OWN_SEED);
requestAnimationFrame(frame);
</script>
</body>
</html>
";
