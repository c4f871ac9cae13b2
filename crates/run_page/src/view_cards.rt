//! The sites' cards, in JavaScript.

/// A card for each site: what it has on record, and what is under way to it.
pub(crate) const CARDS: &str = "'use strict';
// Shows the state after a step. All words get into the page as text, and none as HTML.
const run = JSON.parse(document.getElementById('run').textContent);
const drawing = document.querySelector('#picture svg');
let step = 0;
let playing = null;

function part(id) {
  return document.getElementById(id);
}

function made(tag, kind, text, children) {
  const element = document.createElement(tag);
  element.className = kind;
  element.textContent = text;
  element.append(...(children || []));
  return element;
}

function ballotText(ballot) {
  return '(' + ballot[0] + ', ' + ballot[1] + ')';
}

// A bag in its colour; a dash for none.
function bag(number, before) {
  if (!number) return made('span', 'none', '–');
  return made('span', 'bag f' + number, (before || '') + 'bag ' + number);
}

function cell(content, before) {
  const element = made('td', '', '');
  element.append(content);
  if (before !== element.textContent) element.className = 'new';
  return element;
}

// What is on record for a version; marked is what the last event has changed.
function rowOf(entry, old, name) {
  const text = (it) => (it ? String(it) : '–');
  const promised = (it) => text(it.promised && ballotText(it.promised));
  const vote = (it) => (it.vote ? bag(it.vote.bag, ballotText(it.vote.ballot) + ', ') : bag(0));
  const cells = [[bag(entry.deposit), bag(old.deposit)], [text(entry.round), text(old.round)],
    [promised(entry), promised(old)], [vote(entry), vote(old)], [bag(entry.knows), bag(old.knows)]];
  const row = made('tr', '', '');
  if (run.versions.length > 1) row.append(made('th', '', name));
  row.title = name;
  row.append(...cells.map(([now, then]) => cell(now, then.textContent || then)));
  return row;
}

function tableOf(site, old) {
  const table = made('table', '', '');
  const names = ['deposit', 'round', 'promised', 'voted', 'knows'];
  if (run.versions.length > 1) names.unshift('version');
  table.append(made('tr', '', '', names.map((it) => made('th', '', it))));
  run.versions.forEach((name, place) => {
    table.append(rowOf(site.versions[place], old.versions[place], name));
  });
  return table;
}

// A datagram that is under way to a site.
function onItsWay(number) {
  const sent = run.datagrams[number - 1];
  const text = '#' + number + ' ' + sent.says + ', from ' + sent.from;
  return made('li', sent.bag ? 'f' + sent.bag : '', text);
}

function listOf(state, number) {
  const list = made('ul', 'way', '');
  state.passages.forEach((passage, place) => {
    if (passage === 'under way' && run.datagrams[place].to === number) {
      list.append(onItsWay(place + 1));
    }
  });
  return list;
}

function cardOf(state, old, number, event) {
  const site = state.sites[number - 1];
  const weight = run.weights.some((it) => it !== 1) ? ', weight ' + run.weights[number - 1] : '';
  const modes = { up: 'up', down: 'down', failed: 'its device has failed' };
  const card = made('section', 'card ' + site.mode, '');
  if (event && event.site === number) card.classList.add('now');
  card.id = 'site-' + number;
  card.append(made('h2', '', 'site ' + number + weight));
  card.append(made('p', 'mode', modes[site.mode] + ', ' + site.records + ' on record'));
  card.append(tableOf(site, old.sites[number - 1]), made('h3', '', 'under way to it'));
  card.append(listOf(state, number));
  return card;
}
";
