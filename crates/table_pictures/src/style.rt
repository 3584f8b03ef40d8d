//! The style of a page.

/// The style of a page, light or dark by the setting of the reader.
pub(crate) const STYLE: &str = r##":root {
  color-scheme: light dark;
  --back: #fff; --fore: #1b1f24; --soft: #5c6570; --line: #d5dae0; --card: #f6f8fa;
  --terminal: #0a5c36; --name: #1f4fa3; --bad: #b3261e;
}
@media screen and (prefers-color-scheme: dark) {
  :root {
    --back: #14171b; --fore: #e4e8ec; --soft: #9aa4af; --line: #363d46; --card: #1d2127;
    --terminal: #7ed3a5; --name: #8fb7ff; --bad: #ff9a92;
  }
}
* { box-sizing: border-box; }
[hidden] { display: none; }
html { scroll-padding-top: 1rem; }
body {
  margin: 0 auto; max-width: 76rem; padding: 0 1rem 4rem; background: var(--back);
  color: var(--fore); font: 1rem/1.5 system-ui, sans-serif; overflow-wrap: anywhere;
}
h1 { margin: 1.2rem 0 .2rem; font-size: 1.5rem; }
h2 { margin: 2rem 0 .6rem; font-size: 1.2rem; }
h3 { margin: 0; font-size: 1rem; }
h4 { margin: .6rem 0 .2rem; font-size: .8rem; font-weight: 600; color: var(--soft); }
p { margin: .3rem 0; }
a { color: inherit; }
a, h3 { white-space: nowrap; }
a:focus-visible, article:focus-visible, input:focus-visible, .tree:focus-visible {
  outline: 3px solid var(--name); outline-offset: 2px;
}
.line, .tree, .index, .witness, #found { font-family: ui-monospace, monospace; font-size: .9rem; }
.terminal { color: var(--terminal); unicode-bidi: isolate; }
.terminal:not(.long) { white-space: nowrap; }
.nonterminal { color: var(--name); }
a.rule { white-space: normal; }
details > summary { margin: .4rem 0; cursor: pointer; }
.index { margin: .2rem 0 .8rem; }
.unseen {
  margin: 0 1px; padding: 0 .2em; border: 1px dotted; border-radius: .2em; font-size: .75em;
}
.dot { color: var(--bad); font-weight: 700; }
.line, .witness { padding-left: 2ch; text-indent: -2ch; }
.tokens { margin-left: 1ch; }
.tokens, .tokens .terminal { color: var(--soft); }
#find {
  position: relative; z-index: 1; display: flex; flex-wrap: wrap; align-items: baseline;
  gap: .2rem 1rem; padding: .6rem 0; background: var(--back);
  border-bottom: 1px solid var(--line);
}
#wanted {
  flex: 0 1 24rem; min-width: 0; padding: .3rem .6rem; font: inherit; color: inherit;
  background: var(--card); border: 1px solid var(--soft); border-radius: .4rem;
}
#keys { flex: 1 0 100%; }
#keys, #count { margin: 0; font-size: .85rem; color: var(--soft); }
kbd { padding: 0 .3em; border: 1px solid var(--line); border-radius: .25em; }
#found {
  position: absolute; top: 100%; left: 0; right: 0; max-height: 60vh; margin: 0;
  padding: .4rem .8rem; overflow: auto; list-style: none; background: var(--back);
  border: 1px solid var(--soft); border-radius: 0 0 .5rem .5rem;
}
#find:not(:focus-within) #found { display: none; }
#found li { padding: .15rem 0 .15rem 2ch; text-indent: -2ch; }
article {
  margin: 0 0 .8rem; padding: .8rem 1rem; background: var(--card);
  border: 1px solid var(--line); border-radius: .5rem;
}
article > h3:only-child { margin-bottom: 9rem; }
.bad { border-color: var(--bad); }
.bad h3, .told { color: var(--bad); }
article:target { border-color: var(--name); box-shadow: 0 0 0 1px var(--name); }
.columns { display: grid; gap: 0 2rem; }
.actions { display: flex; flex-wrap: wrap; gap: .6rem 2rem; }
.actions > div { flex: 1 1 auto; max-width: 100%; }
.tree {
  display: flex; align-items: flex-end; gap: .8ch; margin: .4rem 0; padding: .4rem;
  overflow-x: auto; background: var(--back); border: 1px solid var(--line); border-radius: .4rem;
}
.tree span { flex: none; }
.node { display: inline-flex; flex-direction: column; align-items: center; }
.node > .name { position: sticky; left: 0; right: 0; padding: 0 .4em; }
.kids {
  display: flex; align-items: flex-end; justify-content: center; gap: .8ch; min-width: 100%;
  padding: .25rem .3em 0; border: solid var(--soft); border-width: 2px 1px 0;
  border-radius: .3rem .3rem 0 0;
}
.tree .ahead { color: var(--soft); }
.none { color: var(--soft); font-style: italic; }
@media screen and (min-width: 48rem) {
  .columns { grid-template-columns: minmax(0, 5fr) minmax(0, 4fr) minmax(0, 2fr); }
}
@media screen and (min-width: 48rem) and (min-height: 30rem) {
  html { scroll-padding-top: 6.5rem; }
  #find { position: sticky; top: 0; }
}
@media print {
  html { font-size: 9pt; }
  body { max-width: none; padding: 0; }
  #find, noscript { display: none; }
  .columns { grid-template-columns: minmax(0, 5fr) minmax(0, 4fr) minmax(0, 2fr); }
  article { break-inside: avoid; }
  h2, h3, h4 { break-after: avoid; }
  .tree, .kids { flex-wrap: wrap; overflow: visible; }
  .tree span { flex: initial; }
}
"##;
