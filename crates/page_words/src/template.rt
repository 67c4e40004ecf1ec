//! The template of a page. tools/page makes it of page/: change nothing here.

/// The page before its value.
pub const HEAD: &[u8] = br##"<!DOCTYPE html>
<html lang="en">
<head>
<meta charset="utf-8">
<meta http-equiv="Content-Security-Policy" content="default-src 'none'; script-src 'sha256-8ky3/0JpRRHDOX3ppuaDKJk/YDBOkE4ezQMtxvb+Yww='; style-src 'sha256-D9XrieH85uig/M8oydOALf+zluJ4Ve7TdMQ+XRlfU7s='; base-uri 'none'; form-action 'none'; require-trusted-types-for 'script'; trusted-types 'none'">
<meta name="viewport" content="width=device-width, initial-scale=1">
<meta name="color-scheme" content="light dark">
<meta name="referrer" content="no-referrer">
<meta name="generator" content="mpimatch 0.1.0">
<title>mpimatch page</title>
<style>
:root {
  --paper: #ffffff; --ink: #1b1f24; --faint: #57606a; --line: #b6bec8; --band: #f3f5f8; --root: #fde7d9;
  --root-line: #a63c06; --wait: #e3edf9; --wait-line: #2b5fa8; --link: #0b57b0;
  --fixed: ui-monospace, "DejaVu Sans Mono", Menlo, Consolas, monospace;
}

@media (prefers-color-scheme: dark) {
  :root {
    --paper: #15191e; --ink: #e6e9ed; --faint: #a3adb8; --line: #4a535e; --band: #1e242b; --root: #4a2a17;
    --root-line: #f0a070; --wait: #1d3047; --wait-line: #86b4ee; --link: #8dbcf5;
  }
}

* { box-sizing: border-box; }
body {
  margin: 0 auto; padding: 1.2rem 1.6rem 3rem; min-width: 48rem; max-width: 92rem; background: var(--paper);
  color: var(--ink); font: 15px/1.5 system-ui, "Segoe UI", "DejaVu Sans", sans-serif;
}
.skip { position: absolute; left: -100rem; }
.skip:focus { left: 1rem; top: 0.4rem; background: var(--paper); }
a, button.plain { color: var(--link); }
:focus-visible { outline: 3px solid var(--link); outline-offset: 2px; }
.by { margin: 0; color: var(--faint); font: 13px var(--fixed); }
h1 { margin: 0.1rem 0 0.2rem; font-size: 1.55rem; line-height: 1.25; }
h2 { margin: 2rem 0 0.5rem; padding-bottom: 0.2rem; border-bottom: 1px solid var(--line); font-size: 1.15rem; }
#summary, .note { margin: 0 0 0.6rem; color: var(--faint); }
/* names that come from traces keep their own direction, and break where they have to */
.name { font-family: var(--fixed); font-size: 0.9em; overflow-wrap: anywhere; unicode-bidi: isolate; }
.short { white-space: nowrap; }
td .name:not(.short) { display: inline-block; min-width: 17em; }
#roots { margin: 0; padding: 0; list-style: none; }
#roots > li {
  margin: 0 0 0.7rem; padding: 0.5rem 0.9rem 0.6rem; border: 1px solid var(--root-line); border-left-width: 6px;
  border-radius: 4px; background: var(--band);
}
#roots p { margin: 0; }
#roots ul + p { margin-top: 0.4rem; }
#roots ul { margin: 0.2rem 0 0; padding-left: 1.3rem; }
.kind {
  margin-right: 0.5em; padding: 0 0.45em; border: 1px solid var(--root-line); border-radius: 3px; background: var(--root);
  font-size: 0.82em; white-space: nowrap;
}
#picture { overflow-x: auto; }
svg { display: block; max-width: 100%; height: auto; font: 12px var(--fixed); }
svg text { fill: var(--ink); white-space: pre; }
svg .strong { font-weight: bold; }
svg .box { fill: var(--wait); stroke: var(--wait-line); }
svg .root .box { fill: var(--root); stroke: var(--root-line); }
svg .bold .box { stroke-width: 3.5; }
svg .frame { fill: none; stroke: var(--root-line); }
svg .edge { fill: none; stroke: var(--faint); stroke-width: 1.4; }
svg .tip { fill: var(--faint); }
svg [role="button"] { cursor: pointer; }
svg [role="button"]:focus-visible { outline: none; }
svg [role="button"]:hover > .box, svg [role="button"]:focus > .box { stroke-width: 4; stroke-dasharray: 6 3; }
svg .grid { fill: none; stroke: var(--line); stroke-width: 0.7; }
svg .tick { font-size: 11px; text-anchor: middle; }
svg .band { fill: var(--band); stroke: var(--line); stroke-width: 0.8; }
svg .cover { fill: var(--paper); }
svg .open .box { stroke-width: 2; stroke-dasharray: 6 3; }
svg .bar:hover > .box, svg .bar:focus > .box { stroke-width: 3.5; }
svg .bar:focus { outline: none; }
svg .message, svg .lost { fill: none; stroke: var(--faint); stroke-width: 1.1; pointer-events: none; }
svg .lost { stroke: var(--root-line); stroke-width: 2; }
svg .bar text { pointer-events: none; }
[aria-pressed="true"] { font-weight: bold; border-color: var(--ink); }
.pointed {
  min-height: 2.2rem; margin-top: 0.4rem; padding: 0.35rem 0.7rem; border: 1px dashed var(--line); color: var(--ink);
  font-size: 0.93em;
}
.pointed ul { margin: 0; padding-left: 1.1rem; }
.pointed:empty { display: none; }
.filter { display: flex; flex-wrap: wrap; gap: 0.4rem 1.2rem; align-items: end; margin-bottom: 0.4rem; }
.filter label, .filter output { color: var(--faint); font-size: 0.88em; }
.filter input[type="text"] {
  display: block; width: 13rem; padding: 0.2rem 0.4rem; border: 1px solid var(--line); border-radius: 3px;
  background: var(--paper); color: var(--ink); font: 14px var(--fixed);
}
button {
  padding: 0.2rem 0.6rem; border: 1px solid var(--line); border-radius: 3px; background: var(--band); color: var(--ink);
  font: inherit;
}
.rows { overflow-x: auto; margin-bottom: 1.2rem; }
table { border-collapse: collapse; width: 100%; font-size: 0.9em; }
caption { padding: 0.5rem 0 0.2rem; text-align: left; font-weight: bold; }
caption .count { color: var(--faint); font-weight: normal; }
th, td { padding: 0.2rem 0.55rem; border: 1px solid var(--line); text-align: left; vertical-align: top; }
th.number, td.number { text-align: right; font-variant-numeric: tabular-nums; white-space: nowrap; }
thead th { background: var(--band); white-space: nowrap; }
thead button { padding: 0; border: 0; background: none; font-weight: bold; }
tbody tr:nth-child(even) { background: var(--band); }
td ul { margin: 0; padding-left: 1.1rem; min-width: 15em; }
td li .name:not(.short) { display: inline; }
dl { display: grid; grid-template-columns: max-content 1fr; gap: 0.15rem 1.2rem; margin: 0; }
dt { color: var(--faint); }
dd { margin: 0; }
@media print {
  :root {
    --paper: #ffffff; --ink: #000000; --faint: #333333; --line: #888888; --band: #ffffff; --root: #eeeeee;
    --root-line: #000000; --wait: #ffffff; --wait-line: #333333;
  }
  body { min-width: 0; max-width: none; padding: 0; font-size: 10pt; }
  .skip, .filter, .pointed, button.plain { display: none; }
  .rows, #picture { overflow: visible; }
  tr, svg, #roots > li { break-inside: avoid; }
}
</style>
</head>
<body>
<a class="skip" href="#tables">To the tables</a>
<header>
<p class="by">mpimatch</p>
<h1 id="headline">What holds up the run</h1>
<p id="summary"></p>
<noscript><p>The script of this page shows its facts. Without it they stand in the page's source, as JSON.</p></noscript>
</header>
<main>
<section aria-labelledby="holds-head">
<h2 id="holds-head">What holds up the run</h2>
<ol id="roots"></ol>
</section>
<section aria-labelledby="picture-head">
<h2 id="picture-head">Who waits for whom</h2>
<p id="legend" class="note"></p>
<div id="picture"></div>
<div id="pointed" class="pointed" role="status" aria-live="polite"></div>
</section>
<section id="last-moments" aria-labelledby="moments-head">
<h2 id="moments-head">The last moments</h2>
<p class="note">Each lane is a rank, each bar a call from its begin to its end; a dashed bar with an open end hasn't returned. An arrow leads
from a send to the end of its receive; a cross: nobody has received that message. A band is a round of a collective call. Ranks with bold names hold
up the run. <span id="moments-mode"></span></p>
<div id="moments-buttons" class="filter"></div>
<div id="moments"></div>
<div id="moment" class="pointed" role="status" aria-live="polite">Point at a bar, or go there by the tab key and the arrow keys: its call stands
here. The keys + and - zoom.</div>
</section>
<section aria-labelledby="tables-head">
<h2 id="tables-head">Where the ranks stand, and what is left</h2>
<div id="filter" class="filter" role="search" aria-label="Rows of the tables"></div>
<div id="tables" tabindex="-1"></div>
</section>
<section aria-labelledby="made-head">
<h2 id="made-head">What this page is made of</h2>
<dl id="made"></dl>
</section>
</main>
<script type="application/json" id="answer">"##;

/// The page behind its value.
pub const TAIL: &[u8] = br##"</script>
<script>
"use strict";
// Words for what stands in the answer, as `mpimatch explain` says them. The answer is the value that
// `mpimatch explain --json` prints; what its keys mean is said in docs/formats/json.md.

const LONGEST = 160;
// what would not be seen, or would turn the characters beside it around
const HIDDEN = /[\u0000-\u001f\u007f-\u00a0\u00ad\u061c\u180e\u200b-\u200f\u2028-\u202f\u2060-\u206f\ufeff\ufff9-\ufffb]/u;
const BEYOND = {
  gap: "more is known behind a gap", contradiction: "two pieces contradict each other there",
  unread: "the next call is one that mpimatch does not read", cut: "the text was cut there",
};

/** A text of a trace, to be read: hidden characters stand as escapes, and a long text is cut. */
function shown(text, most = LONGEST) {
  const characters = Array.from(text.slice(0, 2 * most));
  const front = characters.slice(0, most).map((it) => (HIDDEN.test(it) ? `\\u{${it.codePointAt(0).toString(16)}}` : it)).join("");
  return characters.length > most || text.length > 2 * most ? `${front} .. (${text.length} characters)` : front;
}

/** `3 ranks`, `1 rank`. */
const counted = (count, one, many = `${one}s`) => `${count} ${count === 1 ? one : many}`;

/** Items by their keys, in the order in which those come. */
function grouped(items, keyOf) {
  const groups = new Map();
  for (const item of items) {
    const key = keyOf(item);
    if (!groups.has(key)) groups.set(key, []);
    groups.get(key).push(item);
  }
  return groups;
}

/** Ranks in rising order as stretches of neighbours: `3`, `8 to 11`. */
function stretchesOf(ranks) {
  const firsts = ranks.filter((rank, i) => ranks[i - 1] !== rank - 1);
  const lasts = ranks.filter((rank, i) => ranks[i + 1] !== rank + 1);
  return firsts.map((first, i) => (first === lasts[i] ? `${first}` : `${first} to ${lasts[i]}`));
}

/** `rank 4`, `ranks 0 to 1, 3`, `ranks 0, 2, 4, .. (512 ranks)`. */
function rankWords(ranks) {
  const parts = stretchesOf(ranks);
  const told = parts.length > 8 ? `${parts.slice(0, 3).join(", ")}, .. (${ranks.length} ranks)` : parts.join(", ");
  return `${ranks.length === 1 ? "rank" : "ranks"} ${told}`;
}

/** A time in nanoseconds, which a text gives in seconds with nine decimals. */
const nanoseconds = (text) => BigInt(text.replace(".", ""));

/** The seconds from one time to another, with three decimals or more. */
function secondsBetween(from, to, decimals = 3) {
  const second = 10n ** BigInt(decimals);
  const parts = ((to - from) * second) / 1000000000n;
  return `${parts / second}.${String(parts % second).padStart(decimals, "0")}`;
}

/** The name of an MPI function, of its word in the answer: `MPI_Reduce_scatter` of `reduce_scatter`. */
const functionOf = (kind) => `MPI_${kind.charAt(0).toUpperCase()}${kind.slice(1)}`;

/** `head_to_head.c:13 in exchange`, where the texts tell from where a call was made. */
const siteWords = ({ caller = "" }) => shown(caller.replace(/ \(([^()]*)\)$/, " in $1"));

/** `call 4, head_to_head.c:13 in exchange`. */
function callWords(call) {
  const number = call.part ? `call ${call.call}, part ${call.part}` : `call ${call.call}`;
  return call.caller === undefined ? number : `${number}, ${siteWords(call)}`;
}

/** `r0.txt:25`, where the texts tell it. */
function traceWords({ file, line }) {
  if (typeof file !== "string") return "";
  return line === undefined ? shown(file) : `${shown(file)}:${line}`;
}

/** The answer, with what is looked up in it more than once. */
class Answer {
  constructor(value) {
    this.value = value;
    this.begin = value.begin === null ? null : nanoseconds(value.begin);
    this.end = value.end === null ? null : nanoseconds(value.end);
    this.standing = new Map(value.standing.map((it) => [it.rank, it]));
    this.polls = new Map(value.polls.map((it) => [it.rank, it]));
    this.stuck = new Set(value.stuck);
    this.truncated = value.truncated ?? [];
    this.differing = value.arguments ?? [];
    this.ownRoots = this.rootsBy("ranks");
    this.holders = this.rootsBy("holds_up");
  }

  /** Of each rank the places of the roots that have it in this list. */
  rootsBy(key) {
    const pairs = this.value.roots.flatMap((root, at) => root[key].map((rank) => ({ rank, at })));
    return new Map(Array.from(grouped(pairs, (it) => it.rank), ([rank, own]) => [rank, own.map((it) => it.at)]));
  }

  /** Since when a rank stands there, from the first time on, and for how long. */
  moment(standing) {
    if (standing.wall === undefined || this.begin === null) return null;
    const wall = nanoseconds(standing.wall);
    return { since: secondsBetween(this.begin, wall), lasts: secondsBetween(wall, this.end) };
  }

  /** Ranks that stand alike together, each group by its first rank; `more` is what else they have to share. */
  groupsOf(ranks, more = () => "") {
    const standing = ranks.map((rank) => this.standing.get(rank)).filter((it) => it !== undefined);
    const key = (it) => JSON.stringify([it.state, it.beyond, this.polls.has(it.rank), it.function, it.comm, it.k, it.caller, more(it.rank)]);
    return Array.from(grouped(standing, key).values(), (alike) => {
      const calls = alike.map((it) => it.call).sort((a, b) => a - b);
      return { first: alike[0], ranks: alike.map((it) => it.rank), calls: [calls[0], calls.at(-1)] };
    });
  }

  /** The ranks that stand in the roots of such kinds, where those wait themselves, or behind them. */
  countIn(isWanted) {
    const waiting = (it) => (it.kind === "mismatch" || it.kind === "cycle" ? [...it.ranks, ...it.holds_up] : it.holds_up);
    return new Set(this.value.roots.filter(isWanted).flatMap(waiting)).size;
  }

  countOf(state) {
    return this.value.standing.filter((it) => it.state === state).length;
  }

  /** The first line of `mpimatch explain`; of arguments that don't agree by what the value tells of them. */
  headline() {
    const all = this.value.ranks;
    const told = (count, front, one, many) => (count === 0 ? "" : `${front}${count} of ${counted(all, "rank")} ${count === 1 ? one : many}.`);
    const unproved = "No rank is proved to be stuck, but ";
    const [ended, disagree] = [this.countOf("ended"), this.truncated.length + this.differing.length > 0];
    return told(this.value.stuck.length, "", "is stuck", "are stuck")
      || told(this.countIn((it) => it.kind === "mismatch"), "Collective calls don't match, which MPI forbids: ",
        "stands in them or waits for those that do", "stand in them or wait for those that do")
      || (disagree ? `Arguments of calls don't agree, which MPI forbids: ${this.disagreementWords()}.` : "")
      || told(this.countIn((it) => it.kind === "silent" || it.kind === "open"), unproved,
        "waits for ranks that give no sign", "wait for ranks that give no sign")
      || told(this.countIn((it) => it.kind === "cycle" && !it.proved), unproved,
        "waits for itself, by polling", "wait for one another, some of them by polling")
      || told(this.countIn((it) => it.kind === "ended"), unproved,
        "waits for ranks that have ended, by polling", "wait for ranks that have ended, some of them by polling")
      || `Nobody waits: ${counted(ended, "rank")} ended${ended < all ? `, ${counted(all - ended, "is", "are")} not seen to wait` : ""}.`;
  }

  /** The first message that is longer than its receive, or the first round in which arguments differ. */
  disagreementWords() {
    if (this.truncated.length > 0) {
      const [{ message, receive, sent, room }] = this.truncated;
      return `rank ${receive.rank} has room for ${counted(room, "element")} (${callWords(receive)}), and the message of rank ${message.rank} `
        + `(${callWords(message)}) has ${sent}`;
    }
    const [{ comm, k, kind, what, groups }] = this.differing;
    const values = groups.slice(0, 4).map(({ value, ranks, call }) => `${shown(value)} at ${rankWords(ranks)} (${callWords(call)})`);
    return `round ${k} on object ${comm}, ${functionOf(kind)}: ${shown(what)} ${values.join(", ")}${groups.length > 4 ? ", .." : ""}`;
  }

  /** Its second line. */
  summary() {
    const told = (state, one, many) => counted(this.countOf(state), one, many);
    const parts = [told("in", "stands in a call", "stand in a call"), told("behind", "is behind its last one", "are behind their last one"),
      told("ended", "has ended", "have ended"), told("none", "has no call that can be read", "have no call that can be read")];
    return `Of ${counted(this.value.ranks, "rank")}, ${parts.slice(0, this.countOf("none") > 0 ? 4 : 3).join(", ")}.`;
  }

  /** What ranks do that stand alike: `are in MPI_Barrier on object 2 (round 0, call 5, main.c:10 in main)`. */
  groupWords({ first, ranks, calls }) {
    const [is, has, poll] = ranks.length === 1 ? ["is", "has", "it polls"] : ["are", "have", "they poll"];
    if (first.state === "none") return `${has} no call that can be read`;
    const state = first.state === "ended" ? `${has} ended,` : `${is} ${first.state}`;
    const object = first.comm === undefined ? "" : ` on object ${first.comm}`;
    const round = first.k === undefined ? "" : `round ${first.k}, `;
    const site = first.caller === undefined ? "" : `, ${siteWords(first)}`;
    const numbers = calls[0] === calls[1] ? `call ${calls[0]}` : `calls ${calls[0]} to ${calls[1]}`;
    const polls = this.polls.has(first.rank) ? `; ${poll}` : "";
    return `${state} ${shown(first.function)}${object} (${round}${numbers}${site})${polls}${this.beyondWords(first)}`;
  }

  beyondWords({ beyond }) {
    return beyond === null ? "" : `; ${BEYOND[beyond] ?? beyond}`;
  }

  /** What may be the matter with ranks that give no sign and stand alike. */
  silenceWords({ first: { state, beyond }, ranks }) {
    const isOne = ranks.length === 1;
    if (beyond !== null || state === "ended") return "";
    if (state === "none") return isOne ? ": its text is missing or has none" : ": their texts are missing or have none";
    if (state === "in") return `, and ${isOne ? "hasn't" : "haven't"} returned: mpimatch doesn't know what that call waits for`;
    return isOne
      ? ", and makes no further call: it computes, has died, or its trace ends too early"
      : ", and make no further call: they compute, have died, or their traces end too early";
  }

  /** What a root is, in a few words. */
  rootWords({ kind, ranks, holds_up: waiting, comm, k, proved }) {
    const [those, isOne] = [rankWords(ranks), ranks.length === 1];
    // (more ranks have ended than wait for them)
    const late = ranks.length > waiting.length ? ", and others make a call too many, or these one too few" : "";
    const words = {
      mismatch: `round ${k} on object ${comm}: the calls of its ranks don't match`,
      cycle: `${those} ${isOne ? "waits for itself" : "wait for one another"}${proved ? "" : ", some by polling"}`,
      ended: `${those} ${isOne ? "has" : "have"} ended${late}`,
      silent: `${those} ${isOne ? "gives" : "give"} no sign`,
      open: `${those} may still go on`,
    };
    return words[kind] ?? `${those}: ${shown(kind)}`;
  }

  /** What stands in a root: of a round its calls, and else its ranks. Each has its ranks and its words. */
  membersOf({ kind: sort, comm, k, ranks: own }) {
    const round = sort === "mismatch" ? this.value.mismatched.find((it) => it.comm === comm && it.k === k) : undefined;
    if (round === undefined) {
      const silence = (it) => (sort === "silent" ? this.silenceWords(it) : "");
      return this.groupsOf(own).map((it) => ({ ranks: it.ranks, words: `${this.groupWords(it)}${silence(it)}` }));
    }
    return round.groups.map(({ kind, root, ranks, call }) => {
      const of = root === null ? "" : ` with root ${root}`;
      const [calls, whose] = ranks.length === 1 ? ["calls", ""] : ["call", `rank ${call.rank}: `];
      return { ranks, words: `${calls} ${functionOf(kind)}${of} (${whose}${callWords(call)})` };
    });
  }
}

// Who waits for whom, drawn: on the left ranks that wait and stand alike, on the right what holds them up.

// the width of a character of the fixed font, the height of a line, and what lies around the lines
const [CHARACTER, LINE, AROUND] = [7.25, 16, 9];
const LONGEST_LINE = 46;
const PARTS_OF_LINE = new RegExp(`.{1,${LONGEST_LINE}}`, "gsu");
const [MOST_BOXES, MOST_MEMBERS] = [40, 8];
const [COLUMN_GAP, BOX_GAP] = [84, 18];

/** An element of SVG with these attributes. */
function drawn(name, attributes = {}, ...children) {
  const element = having(document.createElementNS("http://www.w3.org/2000/svg", name), attributes);
  element.append(...children);
  return element;
}

/** Words as lines of a box: broken between words, where they are too long, and within one that is longer than a line. */
function linesOf(words) {
  const lines = [];
  for (const word of words.split(" ")) {
    const isFit = lines.length > 0 && lines.at(-1).length + 1 + word.length <= LONGEST_LINE;
    const line = isFit ? `${lines.pop()} ${word}` : word;
    lines.push(...(line.match(PARTS_OF_LINE) ?? [""]));
  }
  return lines;
}

/** A box of a picture: its lines, each strong or not, and what it has. */
function boxOf(parts, about) {
  const lines = parts.flatMap(({ words, strong }) => linesOf(words).map((text) => ({ text, strong })));
  const longest = Math.max(...lines.map((it) => Array.from(it.text).length));
  return { ...about, lines, width: longest * CHARACTER + 2 * AROUND, height: lines.length * LINE + 2 * AROUND - 4 };
}

/** The boxes of ranks that wait: alike, and for the same roots, by the middle of those; the last one has those that are too many. */
function waitingBoxes(answer) {
  const ranks = [...answer.holders.keys()].sort((a, b) => a - b);
  const middle = ({ ranks: [rank] }) => answer.holders.get(rank).reduce((sum, it) => sum + it, 0) / answer.holders.get(rank).length;
  const groups = answer.groupsOf(ranks, (rank) => answer.holders.get(rank)).sort((a, b) => middle(a) - middle(b));
  const boxes = groups.slice(0, MOST_BOXES).map((group) => boxOf(
    [{ words: rankWords(group.ranks), strong: true }, { words: answer.groupWords(group) }],
    { ranks: group.ranks, roots: answer.holders.get(group.ranks[0]), kind: "waits" }));
  if (groups.length > MOST_BOXES) {
    const more = groups.slice(MOST_BOXES).flatMap((it) => it.ranks).sort((a, b) => a - b);
    const roots = [...new Set(more.flatMap((rank) => answer.holders.get(rank)))];
    const words = `and ${counted(groups.length - MOST_BOXES, "group")} more: ${rankWords(more)}`;
    boxes.push(boxOf([{ words, strong: true }], { ranks: more, roots, kind: "waits" }));
  }
  return boxes;
}

/** The box of a root: what it is, and its ranks with where they stand. */
function rootBox(answer, root, at) {
  const members = answer.membersOf(root).map(({ ranks, words }) => ({ words: `${rankWords(ranks)} ${words}` }));
  const more = members.splice(MOST_MEMBERS).length;
  if (more > 0) members.push({ words: `and ${counted(more, "group")} more` });
  const head = { words: `${at + 1} ${root.kind}: ${answer.rootWords(root)}`, strong: true };
  return boxOf([head, ...members], { ranks: root.ranks, root: at, kind: root.kind });
}

/** Puts boxes below one another, the column in the middle of this height. */
function place(boxes, x, height) {
  let y = (height - columnHeight(boxes)) / 2;
  for (const box of boxes) {
    Object.assign(box, { x, y });
    y += box.height + BOX_GAP;
  }
}

const columnHeight = (boxes) => boxes.reduce((sum, it) => sum + it.height, BOX_GAP * Math.max(0, boxes.length - 1));

/** A box as it is drawn: a button that tells its ranks. */
function drawnBox(box, point) {
  const { x, y, width, height, kind, root, lines } = box;
  const texts = lines.map(({ text, strong }, i) =>
    drawn("text", { x: x + AROUND, y: y + AROUND + 10 + i * LINE, class: strong ? "strong" : "plain" }, text));
  const frame = drawn("rect", { class: "frame", x: x - 4, y: y - 4, width: width + 8, height: height + 8, rx: 6 });
  const group = drawn("g", {
    class: `${root === undefined ? "waits" : "root"}${kind === "ended" || kind === "silent" ? " bold" : ""}`, role: "button", tabindex: 0,
    "aria-label": lines.map((it) => it.text).join(" "), "aria-describedby": "pointed",
  }, drawn("rect", { class: "box", x, y, width, height, rx: 4 }), ...texts, ...(kind === "mismatch" ? [frame] : []));
  const [look, choose] = [() => point(box, false), () => point(box, true)];
  const press = (event) => {
    if (event.key !== "Enter" && event.key !== " ") return;
    event.preventDefault();
    choose();
  };
  return listening(group, { pointerenter: look, focus: look, click: choose, keydown: press });
}

/** The tip of an arrow that comes from the left, or from the right. */
const tip = (x, y, side) => drawn("path", { class: "tip", d: `M ${x} ${y} l ${-9 * side} -4.5 v 9 z` });

/** An arrow from a box that waits to a root. */
function arrow(from, to, enters) {
  const [x, y] = [from.x + from.width, from.y + from.height / 2];
  const end = to.x - (to.kind === "mismatch" ? 4 : 0);
  const bend = (x + end) / 2;
  return [drawn("path", { class: "edge", d: `M ${x} ${y} C ${bend} ${y} ${bend} ${enters} ${end - 8} ${enters}` }), tip(end, enters, 1)];
}

/** The arrow of ranks that wait for one another, back to their own box. */
function loop(box) {
  const [x, y] = [box.x + box.width, box.y + box.height / 2];
  return [drawn("path", { class: "edge", d: `M ${x} ${y - 9} C ${x + 42} ${y - 22} ${x + 42} ${y + 22} ${x + 8} ${y + 9}` }), tip(x, y + 9, -1)];
}

/** The picture of an answer; `point(box, isChosen)` is told which box is pointed at, or chosen. */
function pictureOf(answer, point) {
  const waiting = waitingBoxes(answer);
  const roots = answer.value.roots.slice(0, MOST_BOXES).map((root, at) => rootBox(answer, root, at));
  const left = Math.max(0, ...waiting.map((it) => it.width));
  const height = Math.max(columnHeight(waiting), columnHeight(roots));
  place(waiting, 0, height);
  place(roots, waiting.length > 0 ? left + COLUMN_GAP : 0, height);
  const right = Math.max(...roots.map((it) => it.x + it.width)) + 46;
  const edges = roots.flatMap((root) => {
    const from = waiting.filter((it) => it.roots.includes(root.root));
    const arrows = from.flatMap((it, i) => arrow(it, root, root.y + (root.height * (i + 1)) / (from.length + 1)));
    return root.kind === "cycle" ? [...arrows, ...loop(root)] : arrows;
  });
  const boxes = [...waiting, ...roots].map((it) => drawnBox(it, point));
  return drawn("svg", {
    viewBox: `-8 -8 ${right + 16} ${height + 16}`, width: right + 16, height: height + 16, role: "group",
    "aria-label": "Groups of ranks that wait, and what holds them up",
  }, ...edges, ...boxes);
}

// Tables whose rows are sorted by a column, and left out where they don't fit the filter.

const FIRST_ROWS = 50;

/** An element of HTML with this class, and text or elements in it. */
function made(name, className, ...children) {
  const element = document.createElement(name);
  if (className !== "") element.className = className;
  element.append(...children);
  return element;
}

/** An element, with these attributes too. */
function having(element, attributes) {
  Object.entries(attributes).forEach(([name, value]) => element.setAttribute(name, `${value}`));
  return element;
}

/** An element that does so where such events come. */
function listening(element, acts) {
  Object.entries(acts).forEach(([event, act]) => element.addEventListener(event, act));
  return element;
}

const button = (text, act, className = "plain") => listening(having(made("button", className, text), { type: "button" }), { click: act });

/** A name that comes from a trace: a short one stays on its line. */
const named = (text) => made("span", text.length <= 36 ? "name short" : "name", text);

/** Items one below the other. */
const list = (items) => made("ul", "", ...items.map((it) => made("li", "", it)));

/** What two cells are sorted by: numbers by their size and before texts, texts by their characters. */
function compared(a, b) {
  if (typeof a !== typeof b) return typeof a === "number" ? -1 : 1;
  return a < b ? -1 : Number(a > b);
}

/** The ranks that a filter names, as `3, 8 to 11` or `3,8-11`: null where it names none, a test else. */
function ranksWanted(words) {
  const stretches = [...words.matchAll(/(\d+)(?:\s*(?:to|-)\s*(\d+))?/g)].map(([, first, last]) => [Number(first), Number(last ?? first)]);
  return stretches.length === 0 ? null : (rank) => stretches.some(([first, last]) => first <= rank && rank <= last);
}

/** A table. A row has its cells in the order of the columns, its ranks, and perhaps the object that it is about. A cell has what is
 * shown, and a number or a text by which it is sorted. A column in which nothing stands is left out. */
class Table {
  constructor(name, columns, rows, about = "") {
    const isUsed = (_, at) => at === 0 || rows.some((it) => it.cells[at].by !== "");
    this.columns = columns.filter(isUsed);
    this.rows = rows.map((it) => ({ ...it, cells: it.cells.filter(isUsed) }));
    this.about = about;
    this.sorted = { column: -1, isRising: true };
    this.most = FIRST_ROWS;
    this.fits = () => true;
    this.count = made("span", "count");
    this.heads = this.columns.map((head, at) => {
      const isNumber = this.rows.some((it) => it.cells[at].isNumber);
      return having(made("th", isNumber ? "number" : "", button(head, () => this.sortBy(at), "")), { scope: "col" });
    });
    this.body = made("tbody", "");
    this.more = button("", () => {
      this.most = Infinity;
      this.show();
    });
    const caption = made("caption", "", `${name} `, this.count);
    const table = made("table", "", caption, made("thead", "", made("tr", "", ...this.heads)), this.body);
    this.element = having(made("div", "rows", table, this.more), { tabindex: 0, role: "region", "aria-label": name });
    this.show();
  }

  sortBy(column) {
    const isRising = this.sorted.column !== column || !this.sorted.isRising;
    this.sorted = { column, isRising };
    const [order, sign] = isRising ? ["ascending", " \u25b2"] : ["descending", " \u25bc"];
    this.heads.forEach((cell, at) => {
      having(cell, { "aria-sort": at === column ? order : "none" }).firstChild.textContent = `${this.columns[at]}${at === column ? sign : ""}`;
    });
    this.show();
  }

  /** Shows the rows that fit, and answers how many there are. */
  show(fits = this.fits) {
    this.fits = fits;
    const rows = this.rows.filter(fits);
    const { column, isRising } = this.sorted;
    if (column >= 0) rows.sort((a, b) => compared(a.cells[column].by, b.cells[column].by) * (isRising ? 1 : -1));
    this.body.replaceChildren();
    for (const { cells } of rows.slice(0, this.most)) {
      const shownCells = cells.map(({ shown: it, isNumber }, at) => made(at === 0 ? "th" : "td", isNumber ? "number" : "", it));
      having(shownCells[0], { scope: "row" });
      this.body.append(made("tr", "", ...shownCells));
    }
    this.count.textContent = rows.length < this.rows.length ? `(${rows.length} of ${this.rows.length} rows) ${this.about}` : this.about;
    this.more.textContent = `Show all ${rows.length} rows`;
    this.more.hidden = rows.length <= this.most;
    return rows.length;
  }
}

/** A cell of a number, or of none. */
const number = (n, text = `${n}`) => (n === null || n === undefined ? { by: "", shown: "" } : { by: Number(n), shown: text, isNumber: true });

/** A cell of words, or of several, one below the other. */
function words(...parts) {
  const all = parts.filter((it) => it !== "");
  return { by: all.join(" "), shown: all.length > 1 ? list(all.map(named)) : named(all.join("")) };
}

/** A cell of ranks. */
function ranksCell(ranks) {
  const text = rankWords(ranks);
  return { by: ranks[0] ?? -1, shown: made("span", text.length <= 24 ? "short" : "", text) };
}

/** A row, with the text in which a filter looks. */
const rowOf = (ranks, object, ...cells) => ({ ranks, object, cells, text: cells.map((it) => `${it.by}`).join("\n").toLowerCase() });

/** What ranks are in the diagnosis: proved to be stuck, of a root, behind roots, polling. */
function partsOf(answer, { first, ranks }) {
  const stuck = ranks.filter((rank) => answer.stuck.has(rank)).length;
  const numbers = (roots) => [...new Set(ranks.flatMap((rank) => roots.get(rank) ?? []))].map((at) => at + 1).slice(0, 8).join(", ");
  const [own, behind, polls] = [numbers(answer.ownRoots), numbers(answer.holders), answer.polls.get(first.rank)];
  return [
    stuck === 0 ? "" : `${stuck === ranks.length ? "" : `${stuck} of ${ranks.length} `}proved to be stuck`,
    own === "" ? "" : `holds up the run (${own})`, behind === "" ? "" : `held up by ${behind}`,
    polls === undefined ? ""
      : `polls: ${polls.count} tests or probes without success, ${polls.calls.map(callWords).slice(0, 3).join("; ")}`,
    answer.beyondWords(first).slice(2),
  ];
}

/** How ranks stand that stand alike. */
function standingRow(answer, group) {
  const { first, ranks, calls } = group;
  const moment = answer.moment(first);
  const state = { in: "in", behind: "behind", ended: "ended", none: "no call" }[first.state] ?? first.state;
  const call = number(calls[0], calls[0] === calls[1] ? `${calls[0]}` : `${calls[0]} to ${calls[1]}`);
  return rowOf(ranks, first.comm, ranksCell(ranks), words(state), words(shown(first.function ?? "")), number(first.comm), number(first.k), call,
    words(siteWords(first)), number(moment?.since), number(moment?.lasts), words(traceWords(first)), words(...partsOf(answer, group)));
}

/** The table of how ranks stand: those that stand alike in one row, or each in its own. */
function standingTable(answer, isOneByOne) {
  const ranks = answer.value.standing.map((it) => it.rank);
  const parts = (rank) => [answer.ownRoots.get(rank), answer.holders.get(rank), answer.stuck.has(rank)];
  const groups = answer.groupsOf(ranks, (rank) => (isOneByOne ? rank : parts(rank)));
  const columns = ["ranks", "stand", "function", "object", "round", "call", "call site", "since (s)", "for (s)", "trace", "of the run"];
  const about = isOneByOne ? "" : "(times and traces are those of the first rank)";
  return new Table("Where the ranks stand", columns, groups.map((it) => standingRow(answer, it)), about);
}

const WHY = {
  tag: "another tag", comm: "another communicator", source: "another source", dest: "another rank", taken: "taken by an earlier receive",
  postponed: "an open receive may have taken it", idle: "a persistent request that isn't active",
};

/** A nearest miss: what differs, and the call that would fit but for that. */
function nearWords({ why, message, receive, by }) {
  const other = message ?? receive;
  const taker = by === undefined ? "" : `; that is rank ${by.rank}, ${callWords(by)}`;
  return `${WHY[why] ?? shown(why)}: rank ${other.rank}, ${callWords(other)}${taker}`;
}

/** All further tables that have rows. */
function otherTables(answer) {
  const { truncated, differing } = answer;
  const { mismatched, open, left_over: left, starving, unfinished, doubts } = answer.value;
  const lone = (call, ...more) => rowOf([call.rank], undefined,
    ranksCell([call.rank]), number(call.call), words(siteWords(call)), words(traceWords(call)), ...more);
  const rounds = (list, row) => list.flatMap((it) => it.groups.map((group) =>
    rowOf(group.ranks, it.comm, ranksCell(group.ranks), number(it.comm), number(it.k), ...row(it, group))));
  const callHeads = ["rank", "call", "call site", "trace"];
  return [
    ["Rounds of collective calls that don't match", ["ranks", "object", "round", "function", "root", "first call", "trace"],
      rounds(mismatched, (it, { kind, root, call }) => [words(functionOf(kind)), number(root), words(callWords(call)), words(traceWords(call))])],
    ["Rounds of collective calls that not all have entered", ["haven't entered", "object", "round", "function", "root", "have entered"],
      open.map((it) => rowOf(it.missing, it.comm,
        ranksCell(it.missing), number(it.comm), number(it.k), words(functionOf(it.kind)), number(it.root), ranksCell(it.entered)))],
    ["Messages that nobody has received", [...callHeads, "came through before", "missed by"],
      left.map((it) => lone(it.message, number(it.before), words(...it.near.map(nearWords))))],
    ["Receives that wait for a message that nobody has sent", [...callHeads, "came through before", "missed by"],
      starving.map((it) => lone(it.receive, number(it.before), words(...it.near.map(nearWords))))],
    ["Messages longer than their receives", [...callHeads, "sent", "room", "receive"],
      truncated.map((it) => lone(it.message, number(it.sent), number(it.room), words(`rank ${it.receive.rank}, ${callWords(it.receive)}`)))],
    ["Arguments that don't agree", ["ranks", "object", "round", "function", "argument", "value", "first call"],
      rounds(differing, (it, { value, call }) => [words(functionOf(it.kind)), words(shown(it.what)), words(shown(value)), words(callWords(call))])],
    ["Requests that were never completed, of ranks that have ended", callHeads, unfinished.map((it) => lone(it))],
    ["What may make this wrong", ["what", "calls or ranks"], doubtRows(doubts)],
  ].filter(([, , rows]) => rows.length > 0).map(([name, columns, rows]) => new Table(name, columns, rows));
}

/** What may make the answer wrong. */
function doubtRows(doubts) {
  const row = (ranks, text, cell) => rowOf(ranks, undefined, words(text), cell);
  const ofRanks = [["unread", "the next call is one that mpimatch does not read"], ["gaps", "more is known behind a gap"],
    ["conflicts", "pieces contradict each other"], ["no_calls", "no call can be read"]];
  return [
    ...doubts.local.map((it) => row([], `${shown(it.function)} may wait or move data, and isn't read`, number(it.calls))),
    ...doubts.foreign.map((it) => row([], `${shown(it.object)} ${it.number} isn't known`, number(it.calls))),
    ...ofRanks.filter(([key]) => doubts[key].length > 0).map(([key, text]) => row(doubts[key], text, ranksCell(doubts[key]))),
    ...doubts.cut.map((it) => row([it.rank], `the text was cut: ${traceWords(it)}`, ranksCell([it.rank]))),
    ...(doubts.size === null ? [] : [row([], "MPI_Comm_size of the world tells more ranks", number(doubts.size))]),
  ];
}

// The last moments, drawn: the last calls of some ranks against time, with their messages and their rounds.

const [FIRST_LANES, TICKS] = [12, 5];
// the height of a lane, and of a bar in it
const [LANE, BAR] = [24, 14];
// the width of the names of lanes, and of what lies behind the end, where calls go on that haven't returned
const [NAMES, AFTER] = [76, 104];

/** The lanes of rows: of each rank its calls, each with its rows. */
function lanesOf(rows) {
  return Array.from(grouped(rows, (it) => it.rank).values(), (ofRank) => Array.from(grouped(ofRank, (it) => it.call).values(), (own) => {
    const [{ rank, call, enter, return: leaves }] = own;
    return { rank, call, rows: own, enter: nanoseconds(enter), leaves: leaves === null ? null : nanoseconds(leaves) };
  }));
}

/** What a row says beside its times. */
function rowWords(row) {
  const [way, other] = { send: ["to rank", "its message went to"], receive: ["from rank", "its message came from"] }[row.side] ?? ["root", ""];
  const told = (key, words) => (row[key] === null ? "" : shown(`${words} ${row[key]}`));
  return [
    row.part > 0 ? `part ${row.part}` : "", row.side ?? "", told("object", "on object"), told("round", "round"), told("peer", way),
    told("tag", "tag"), told("count", "count"), told("datatype", "datatype"), told("request", "request"),
    told("partner_call", `${other} rank ${row.partner_rank}, call`), told("completed_by", "completed by call"),
  ].filter((it) => it !== "").join(", ");
}

/** The lanes, of whose time a stretch is shown; `tell(call)` is told at which call somebody points. */
class Moments {
  constructor(answer, tell) {
    // (time is shown between its parts `from` and `to`)
    Object.assign(this, { answer, tell, most: FIRST_LANES, isTrue: false, from: 0, to: 1, chosen: null, times: [] });
    this.lanes = lanesOf(answer.value.last_calls);
    this.element = listening(drawn("svg", { tabindex: 0, role: "group" }), { keydown: (event) => this.press(event) });
  }

  /** Where a moment lies in all time, from 0 to 1. */
  partOf(time) {
    const { times, isTrue } = this;
    return isTrue ? Number(time - times[0]) / Math.max(1, Number(times.at(-1) - times[0])) : this.placeOf.get(time) / Math.max(1, times.length - 1);
  }

  xOf(time) {
    const x = NAMES + ((this.partOf(time) - this.from) / (this.to - this.from)) * (this.width - NAMES - AFTER);
    return Math.round(Math.min(Math.max(x, -1e5), 1e5) * 100) / 100;
  }

  /** Where a call begins and ends in the picture. */
  stretchOf({ enter, leaves }) {
    const x = this.xOf(enter);
    return [x, leaves === null ? Math.max(x + AFTER, this.width) : Math.max(x + 4, this.xOf(leaves))];
  }

  /** The middle of a rank's lane. */
  yOf(rank) {
    return LANE * (this.laneOf.get(rank) + 0.5);
  }

  /** A call, and since when or from when to when it lasts. */
  wordsOf({ rank, call, rows: [{ function: name, site }], enter, leaves }) {
    const since = secondsBetween(this.answer.begin, enter, 6);
    const times = leaves === null ? `since ${since} s, hasn't returned`
      : `from ${since} s to ${secondsBetween(this.answer.begin, leaves, 6)} s, for ${secondsBetween(enter, leaves, 6)} s`;
    return `rank ${rank}, call ${call}, ${shown(name ?? "")}, ${times}${site === null ? "" : `, ${siteWords({ caller: site })}`}`;
  }

  /** Shows time from one part to another, or nearly so. */
  show(from, to) {
    const length = Math.min(1, Math.max(this.isTrue ? 1e-7 : 4 / this.times.length, to - from));
    this.from = Math.min(Math.max(0, from), 1 - length);
    this.to = this.from + length;
    this.draw();
  }

  /** Shows less or more time. The chosen call stays where it is, else the end. */
  zoom(factor) {
    const part = this.chosen === null ? 1 : this.partOf(this.chosen.enter);
    const kept = Math.min(Math.max(part, this.from), this.to);
    this.show(kept - (kept - this.from) * factor, kept + (this.to - kept) * factor);
  }

  /** Shows what lies before, or behind. */
  move(way) {
    const by = (way * (this.to - this.from)) / 2;
    this.show(this.from + by, this.to + by);
  }

  press(event) {
    const act = {
      ArrowLeft: () => this.go(-1, 0), ArrowRight: () => this.go(1, 0), ArrowUp: () => this.go(0, -1), ArrowDown: () => this.go(0, 1),
      "+": () => this.zoom(0.5), "=": () => this.zoom(0.5), "-": () => this.zoom(2), 0: () => this.show(0, 1),
    }[event.key];
    if (act === undefined || event.ctrlKey || event.metaKey || event.altKey) return;
    event.preventDefault();
    act();
  }

  /** Goes to the call before or behind the chosen one, or to that of the next lane that is as far from the last one. */
  go(across, down) {
    const bound = (i, list) => list[Math.min(Math.max(0, i), list.length - 1)];
    const from = this.chosen ?? this.seen[0].at(-1);
    const at = this.laneOf.get(from.rank);
    const lane = bound(at + down, this.seen);
    this.chosen = bound(lane.length - this.seen[at].length + this.seen[at].indexOf(from) + across, lane);
    const [part, half] = [this.partOf(this.chosen.enter), (this.to - this.from) / 2];
    if (part < this.from || part > this.to) this.show(part - half, part + half);
    this.bars.get(this.chosen).focus();
  }

  bar(call) {
    const [x, end] = this.stretchOf(call);
    const [y, isOpen] = [this.yOf(call.rank), call.leaves === null];
    const box = drawn("path", { class: "box", d: `M ${end} ${y - BAR / 2} H ${x} v ${BAR} H ${end}${isOpen ? "" : " z"}` });
    const group = drawn("g", { class: isOpen ? "bar open" : "bar", role: "img", tabindex: -1, "aria-label": this.wordsOf(call) }, box);
    const name = shown(call.rows[0].function ?? "", 40).replace(/^MPI_/, "");
    const front = Math.max(x, NAMES) + 5;
    if (Math.min(end, this.width) - front > name.length * CHARACTER) group.append(drawn("text", { x: front, y: y + 4 }, name));
    this.bars.set(call, group);
    const choose = () => {
      this.chosen = call;
      this.tell(call);
    };
    return listening(group, { pointerenter: () => this.tell(call), focus: choose });
  }

  lane(calls) {
    const [{ rank }] = calls;
    const isRoot = this.answer.ownRoots.has(rank);
    return drawn("g", { class: isRoot ? "lane root" : "lane", role: "group", "aria-label": `rank ${rank}${isRoot ? ", holds up the run" : ""}` },
      drawn("path", { class: "grid", d: `M ${NAMES} ${this.yOf(rank)} H ${this.width}` }), ...calls.map((it) => this.bar(it)));
  }

  /** A band behind the calls of each round that two lanes have at least. */
  bands() {
    const own = [...this.rows.values()].filter(({ row }) => row.object !== null && row.round !== null);
    const rounds = Array.from(grouped(own, ({ row }) => `${row.object} ${row.round}`).values(), (alike) => alike.map((it) => it.call));
    return rounds.filter((calls) => calls.some((it) => it.rank !== calls[0].rank)).map((calls) => {
      const x = Math.min(...calls.map((it) => this.stretchOf(it)[0])) - 2;
      const width = Math.max(...calls.map((it) => this.stretchOf(it)[1])) + 2 - x;
      const rows = calls.map((it) => this.yOf(it.rank));
      const y = Math.min(...rows) - LANE / 2 + 2;
      return drawn("rect", { class: "band", x, y, width, height: Math.max(...rows) - y + LANE / 2 - 2, rx: 3 });
    });
  }

  /** The row of a shown lane that sends, or receives. (A Sendrecv has one of each.) */
  rowAt(rank, call, part, side) {
    return this.rows.get(`${rank} ${call} ${part} ${side}`);
  }

  /** An arrow from each send to the end of its receive, or of the call that completes that. */
  messages() {
    return [...this.rows.values()].filter(({ row }) => row.side === "send").flatMap(({ call, row }) => {
      const to = this.rowAt(row.partner_rank, row.partner_call, row.partner_part, "receive");
      if (to === undefined) return [];
      const last = this.seen[this.laneOf.get(to.call.rank)].find((it) => it.call === to.row.completed_by) ?? to.call;
      const [x, y, end, bottom] = [this.xOf(call.enter), this.yOf(call.rank), this.stretchOf(last)[1], this.yOf(last.rank)];
      const angle = Math.atan2(bottom - y, end - x);
      const side = (turn) => `${end - 8 * Math.cos(angle + turn)} ${bottom - 8 * Math.sin(angle + turn)}`;
      const line = y === bottom ? `Q ${(x + end) / 2} ${y - LANE}` : "L";
      return drawn("path", { class: "message", d: `M ${x} ${y} ${line} ${end} ${bottom} M ${side(0.4)} L ${end} ${bottom} L ${side(-0.4)}` });
    });
  }

  /** A short arrow with a cross for each message that nobody has received. */
  lost() {
    const rows = this.answer.value.left_over.map(({ message: { rank, call, part = 0 } }) => this.rowAt(rank, call, part, "send"));
    return rows.filter((it) => it !== undefined).map(({ call, row }) => {
      const way = (this.laneOf.get(row.peer) ?? Infinity) < this.laneOf.get(call.rank) ? -1 : 1;
      return drawn("path", { class: "lost", d: `M ${this.xOf(call.enter)} ${this.yOf(call.rank)} l 12 ${way * 14} m -4 -4 l 8 8 m 0 -8 l -8 8` });
    });
  }

  /** Some moments for the axis. */
  ticks() {
    const { times, from, to } = this;
    const lasts = Number(times.at(-1) - times[0]);
    const parts = Array.from({ length: TICKS + 1 }, (_, i) => from + ((to - from) * i) / TICKS);
    const timeOf = (part) => (this.isTrue ? times[0] + BigInt(Math.round(part * lasts)) : times[Math.round(part * (times.length - 1))]);
    return [...new Set(parts.map(timeOf))];
  }

  /** Looks what the shown lanes have, and draws it. */
  draw() {
    this.seen = this.lanes.slice(0, this.most);
    const calls = this.seen.flat();
    this.laneOf = new Map(this.seen.map(([it], i) => [it.rank, i]));
    this.rows = new Map(calls.flatMap((call) => call.rows.map((row) => [`${call.rank} ${call.call} ${row.part} ${row.side}`, { call, row }])));
    this.times = [...new Set([...calls.flatMap((it) => [it.enter, it.leaves ?? it.enter]), this.answer.end])].sort(compared);
    this.placeOf = new Map(this.times.map((it, i) => [it, i]));
    this.bars = new Map();
    this.width = Math.max(620, this.element.parentElement.clientWidth);
    const [bottom, height] = [LANE * this.seen.length, LANE * (this.seen.length + 1)];
    const isWithin = this.element.contains(document.activeElement) && this.element !== document.activeElement;
    const ticks = this.ticks().map((it) => [this.xOf(it), `${secondsBetween(this.answer.begin, it, 6)} s`]);
    const names = this.seen.map(([{ rank }]) =>
      drawn("text", { class: this.answer.ownRoots.has(rank) ? "strong" : "plain", x: 2, y: this.yOf(rank) + 4 }, `rank ${rank}`));
    const about = `The last ${counted(calls.length, "call")} of ${counted(this.seen.length, "rank")} against time`;
    having(this.element, { viewBox: `0 0 ${this.width} ${height}`, width: this.width, height, "aria-label": about });
    this.element.replaceChildren(...this.bands(), ...ticks.map(([x]) => drawn("path", { class: "grid", d: `M ${x} 0 V ${bottom + 5}` })),
      ...this.seen.map((it) => this.lane(it)), ...this.messages(), ...this.lost(), drawn("rect", { class: "cover", width: NAMES - 3, height }), ...names,
      ...ticks.map(([x, text]) => drawn("text", { class: "tick", x, y: bottom + 18 }, text)));
    if (isWithin) this.bars.get(this.chosen).focus();
  }
}

// The parts of the page, from top to bottom.

const answer = new Answer(JSON.parse(document.getElementById("answer").textContent));
const at = (id) => document.getElementById(id);
let tables = [];

/** Groups of ranks with their words, the first of them where there are many. */
function listOf(groups, most) {
  const lines = groups.slice(0, most).map((it) => named(`${rankWords(it.ranks)} ${it.words}`));
  const more = groups.length > most ? [`and ${counted(groups.length - most, "group")} more, which stand in the table below`] : [];
  return list([...lines, ...more]);
}

/** What holds up the run: each root with its ranks, and who waits for it. */
function showRoots() {
  at("headline").textContent = answer.headline();
  document.title = answer.headline();
  at("summary").textContent = answer.summary();
  const { roots: all } = answer.value;
  const roots = all.slice(0, MOST_BOXES).map((root, i) => {
    const proved = root.kind === "cycle" || root.kind === "ended" ? (root.proved ? " (proved)" : " (not proved)") : "";
    const head = made("p", "", made("span", "kind", `${i + 1} ${root.kind}${proved}`), made("strong", "", answer.rootWords(root)));
    const members = listOf(answer.membersOf(root), 12);
    const count = root.holds_up.length;
    const whom = root.kind === "mismatch" || root.ranks.length > 1 ? "them" : "it";
    const those = `${counted(count, "rank waits", "ranks wait")} for ${whom}: ${rankWords(root.holds_up)}`;
    const waiting = answer.groupsOf(root.holds_up).map((it) => ({ ranks: it.ranks, words: answer.groupWords(it) }));
    return made("li", "", head, members, ...(count === 0 ? [] : [made("p", "", those), listOf(waiting, 6)]));
  });
  if (all.length > MOST_BOXES) roots.push(made("li", "", `and ${all.length - MOST_BOXES} more: the table below has their ranks`));
  at("roots").replaceChildren(...(roots.length > 0 ? roots : [made("li", "", "Nothing holds it up.")]));
}

/** Tells which ranks a box of the picture has; where it is chosen, the tables show those alone. */
function point(box, isChosen) {
  const lines = answer.groupsOf(box.ranks).slice(0, 8).map((group) => {
    const moment = answer.moment(group.first);
    const times = moment === null ? "" : `; the first stands there since ${moment.since} s, for ${moment.lasts} s, in ${traceWords(group.first)}`;
    return named(`${rankWords(group.ranks)} ${answer.groupWords(group)}${times}`);
  });
  at("pointed").replaceChildren(list(lines));
  if (!isChosen) return;
  at("ranks-wanted").value = stretchesOf(box.ranks).join(", ");
  filterTables();
  at("tables").scrollIntoView();
}

/** What the picture's signs mean, of those that it has. */
function legendOf(roots) {
  if (roots.length === 0) return "No rank is seen to wait for another.";
  const signs = [
    [["cycle"], "An arrow back: they wait for one another."], [["mismatch"], "A double frame: calls that don't match."],
    [["ended", "silent"], "A bold frame: ended, or no sign."],
  ].filter(([kinds]) => roots.some((it) => kinds.includes(it.kind))).map(([, words]) => words);
  const more = roots.length > MOST_BOXES ? [`The first ${MOST_BOXES} of ${roots.length} are drawn.`] : [];
  return ["An arrow leads from ranks that wait to what holds them up, perhaps by way of others.", ...signs, ...more,
    "Choose a box, and the tables show its ranks."].join(" ");
}

function showPicture() {
  const { roots } = answer.value;
  at("legend").textContent = legendOf(roots);
  at("pointed").hidden = roots.length === 0;
  if (roots.length === 0) return;
  at("picture").replaceChildren(pictureOf(answer, point));
  at("pointed").textContent = "Point at a box, or go there by the tab key: its ranks and calls stand here.";
}

/** The last calls of some ranks against time, where the value has them. */
function showMoments() {
  const rows = answer.value.last_calls ?? [];
  at("last-moments").hidden = rows.length === 0;
  if (rows.length === 0) return;
  const moments = new Moments(answer, (call) => {
    const lines = call.rows.map(rowWords).filter((it) => it !== "").map(named);
    at("moment").replaceChildren(named(moments.wordsOf(call)), list(lines));
  });
  const change = (changes) => {
    Object.assign(moments, changes);
    more.hidden = moments.lanes.length <= moments.most;
    having(isTimely, { "aria-pressed": moments.isTrue });
    at("moments-mode").textContent = moments.isTrue ? "Lengths are true to time."
      : "Each begin or end is a step, all steps are equally long: not true to time.";
    moments.show(0, 1);
  };
  const more = button(`Show all ${moments.lanes.length} lanes`, () => change({ most: Infinity }));
  const isTimely = button("True to time", () => change({ isTrue: !moments.isTrue }));
  at("moments").replaceChildren(moments.element);
  at("moments-buttons").replaceChildren(button("Zoom in", () => moments.zoom(0.5)), button("Zoom out", () => moments.zoom(2)),
    button("All", () => moments.show(0, 1)), button("Earlier", () => moments.move(-1)), button("Later", () => moments.move(1)), isTimely, more);
  change({});
  window.addEventListener("resize", () => moments.draw());
}

/** Leaves out the rows of all tables that don't fit the words of the filter. */
function filterTables() {
  const isWanted = ranksWanted(at("ranks-wanted").value);
  const [text, object] = [at("text-wanted").value.trim().toLowerCase(), at("object-wanted").value.trim()];
  const fits = (row) => (isWanted === null || row.ranks.some(isWanted)) && row.text.includes(text)
    && (object === "" || (row.object !== undefined && `${row.object}` === object));
  const counts = tables.map((it) => it.show(fits));
  at("fitting").textContent = `${counted(counts.reduce((a, b) => a + b, 0), "row")} in ${counted(counts.filter((it) => it > 0).length, "table")}`;
}

function field(id, label) {
  const input = having(made("input", ""), { id, type: "text", spellcheck: false });
  return made("label", "", label, listening(input, { input: filterTables }));
}

function showFilter() {
  const each = listening(having(made("input", ""), { id: "each-rank", type: "checkbox" }), { change: showTables });
  const count = having(made("output", ""), { id: "fitting" });
  at("filter").replaceChildren(field("ranks-wanted", "Ranks, as 3, 8 to 11"), field("text-wanted", "Function, call site or other text"),
    field("object-wanted", "Object (its id in the layout)"), made("label", "", each, " a row for each rank"), count);
}

function showTables() {
  tables = [standingTable(answer, at("each-rank").checked), ...otherTables(answer)];
  at("tables").replaceChildren(...tables.map((it) => it.element));
  filterTables();
}

/** A wall time, and as a date where it can be one. */
function wallWords(text) {
  const seconds = Number(text);
  return seconds < 1e9 || seconds > 1e10 ? `${text} s` : `${new Date(seconds * 1000).toISOString()} (${text} s)`;
}

function showMade() {
  const { ranks, sends, begin, end, standing, other_sends: other } = answer.value;
  const files = new Set(standing.map((it) => it.file).filter((it) => it !== undefined)).size;
  const sentence = { wait: "a send of standard mode waits for its receive", buffer: "a send of standard mode is buffered" }[sends] ?? sends;
  const rows = [
    ["Made by", `${document.querySelector("meta[name=generator]").content} page, of what mpimatch explain --json says`],
    ["Ranks", `${ranks}`], ["Files", `${files}, in which the last calls of ranks stand`], ["Sends", sentence],
    ["Begins", begin === null ? "no call can be read" : wallWords(begin)], ["Ends", end === null ? "" : wallWords(end)],
    ["Lasts", begin === null ? "" : `${secondsBetween(answer.begin, answer.end)} s`],
    ["Other sends", other === null ? "" : `with the other kind of sends ${other.length === 0 ? "no rank" : rankWords(other)} would be stuck`],
  ];
  at("made").replaceChildren(...rows.filter(([, text]) => text !== "").flatMap(([name, text]) => [made("dt", "", name), made("dd", "", named(text))]));
}

[showRoots, showPicture, showMoments, showFilter, showTables, showMade].forEach((part) => part());
</script>
</body>
</html>
"##;
